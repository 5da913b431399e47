// What calls smash of what is kept.
ghost use Rattle.std.specs.Prelude.{◌≡◌, ◌&&◌, Some, flat_map, IfOk, OnOk};
ghost use Rattle.std.specs.List.{list_any};
ghost use Rattle.formula.specs.Atoms.{is_among};
ghost use Rattle.fort_syntax.specs.Names.{has_common};
ghost use Rattle.fort_model.specs.CallRules.{bare_name, bare_names};
ghost use Rattle.smash_table.specs.Smashed.{names_of_callee, shared_by, shared_row, site_names};
ghost use Rattle.do_smashes.specs.Clear.{AreClear};
ghost use Rattle.do_smashes.specs.Guards.{is_kept};
ghost use Rattle.do_smashes.specs.Hits.{IsCalled, row_of, unit_of, program_of};

use crate::guards::Guards;
use call_sites::{Book, DeckBook, Site};
use edge_io::NoMemory;
use fort_syntax::{Expr, Name};
use name_tables::NameSet;
use smash_table::{UnitSet, has_common};

/// A unit that calls others: all units, the names that each smashes, and the unit itself.
#[derive(Drop)]
pub(crate) struct Caller<'a> {
    pub(crate) deck: &'a DeckBook<'a>,
    pub(crate) rows: &'a [NameSet],
    pub(crate) book: &'a Book<'a>,
}

/// The names that are kept at a point.
#[derive(Drop)]
pub(crate) struct Kept<'a> {
    pub(crate) guards: &'a Guards,
    pub(crate) at: usize,
}

impl<'a> Kept<'a> {
    /// Whether a name is one of them.
    pub(crate) fn has(&self, name: &Name) -> bool
        ensures { result ≡ is_kept self.now.guards.now self.now.at name.now }
    {
        self.guards.keeps(self.at, name)
    }
}

/// A called unit, and all rows of names that units smash.
#[derive(Drop)]
struct Called<'a> {
    number: usize,
    rows: &'a [NameSet],
    book: &'a Book<'a>,
}

impl<'a> Called<'a> {
    /// Whether it smashes a name.
    fn smashes(&self, name: &Name) -> bool
        ensures { result ≡ is_among name.now (row_of self.now.rows.now self.now.number) }
    {
        match self.rows.get(self.number) {
            Some(row) => row.has(name),
            None => false,
        }
    }
}

/// Whether an actual of a dummy that may be smashed is, bare, a kept name.
fn hits_actual(kept: &Kept, smashed: bool, actual: &Expr) -> bool
    ensures { result ≡ list_any (is_kept kept.now.guards.now kept.now.at) (bare_name smashed actual.now) }
{
    if !smashed {
        return false;
    }
    match actual {
        Expr::Var(x) => kept.has(x),
        _ => false,
    }
}

/// Whether a smashed dummy gets a kept name.
fn hits_actuals(kept: &Kept, called: &Called, dummies: &[Name], actuals: &[Expr]) -> bool
    ensures { result ≡ list_any (is_kept kept.now.guards.now kept.now.at)
        (bare_names (λ d. is_among d (row_of called.now.rows.now called.now.number)) dummies.now
        actuals.now) }
{
    let mut at = 0;
    while at < dummies.len() && at < actuals.len() {
        if hits_actual(kept, called.smashes(&dummies[at]), &actuals[at]) {
            return true;
        }
        at += 1;
    }
    false
}

/// Whether a name is kept and a COMMON entity of both units of a call.
fn hits_name(kept: &Kept, caller: &Book, callee: &Book, name: &Name) -> bool
    ensures { result ≡ (is_kept kept.now.guards.now kept.now.at name.now
        && (has_common callee.now.unit.now name.now && has_common caller.now.unit.now name.now)) }
{
    kept.has(name) && (has_common(callee, name) && has_common(caller, name))
}

/// Whether one of the names that a called unit smashes is so.
fn hits_names(kept: &Kept, caller: &Book, callee: &Book, names: &[Name]) -> bool
    ensures { result ≡ list_any (is_kept kept.now.guards.now kept.now.at)
        (shared_row caller.now.unit.now callee.now.unit.now names.now) }
{
    for name in names {
        if hits_name(kept, caller, callee, name) {
            return true;
        }
    }
    false
}

/// Whether a called unit smashes a kept name that is a COMMON entity of both units.
fn hits_shared(kept: &Kept, caller: &Book, called: &Called) -> bool
    ensures { result ≡ list_any (is_kept kept.now.guards.now kept.now.at)
        (shared_row caller.now.unit.now called.now.book.now.unit.now
        (row_of called.now.rows.now called.now.number)) }
{
    match called.rows.get(called.number) {
        Some(row) => hits_names(kept, caller, called.book, row.names()),
        None => false,
    }
}

/// Whether a called unit smashes a kept name that is a COMMON entity of both units. The names that a unit smashes are not gone
/// through again where it is among those known to smash no such name, and a unit that is found to be so is added to them.
fn hits_commons(
    kept: &Kept,
    caller: &Caller,
    clear: &mut UnitSet,
    called: &Called,
) -> Result<bool, NoMemory>
    requires called { IsCalled caller.now called.now }
    requires clear { AreClear (program_of caller.now) (unit_of caller.now) kept.now.guards.now
        kept.now.at clear.old }
    ensures hit { IfOk result (λ hit. hit ≡ list_any (is_kept kept.now.guards.now kept.now.at)
        (shared_by (program_of caller.now) (unit_of caller.now) called.now.number)) }
    ensures clear { OnOk result (AreClear (program_of caller.now) (unit_of caller.now)
        kept.now.guards.now kept.now.at clear.new) }
{
    if clear.has(called.number) {
        return Ok(false);
    }
    if hits_shared(kept, caller.book, called) {
        return Ok(true);
    }
    let Ok(()) = clear.add(called.number) else {
        return Err(NoMemory);
    };
    Ok(false)
}

/// Whether a call of a unit smashes a kept name.
fn hits_call(
    kept: &Kept,
    caller: &Caller,
    clear: &mut UnitSet,
    called: &Called,
    actuals: &[Expr],
) -> Result<bool, NoMemory>
    requires called { IsCalled caller.now called.now }
    requires clear { AreClear (program_of caller.now) (unit_of caller.now) kept.now.guards.now
        kept.now.at clear.old }
    ensures hit { IfOk result (λ hit. hit ≡ list_any (is_kept kept.now.guards.now kept.now.at)
        (names_of_callee (program_of caller.now) (unit_of caller.now) actuals.now
        (Some called.now.number))) }
    ensures clear { OnOk result (AreClear (program_of caller.now) (unit_of caller.now)
        kept.now.guards.now kept.now.at clear.new) }
{
    let dummies = called.book.unit.dummies.as_slice();
    if hits_actuals(kept, called, dummies, actuals) {
        return Ok(true);
    }
    let Ok(hit) = hits_commons(kept, caller, clear, called) else {
        return Err(NoMemory);
    };
    Ok(hit)
}

/// Whether a call in the unit smashes a kept name.
fn hits_site(
    kept: &Kept,
    caller: &Caller,
    clear: &mut UnitSet,
    site: &Site,
) -> Result<bool, NoMemory>
    requires { AreClear (program_of caller.now) (unit_of caller.now) kept.now.guards.now
        kept.now.at clear.old }
    ensures hit { IfOk result (λ hit. hit ≡ list_any (is_kept kept.now.guards.now kept.now.at)
        (site_names (program_of caller.now) (unit_of caller.now) site.now)) }
    ensures clear { OnOk result (AreClear (program_of caller.now) (unit_of caller.now)
        kept.now.guards.now kept.now.at clear.new) }
{
    match caller.deck.callee(site) {
        Some(number) => {
            let called = Called {
                number,
                rows: caller.rows,
                book: caller.deck.book(number),
            };
            let Ok(hit) = hits_call(kept, caller, clear, &called, site.actuals()) else {
                return Err(NoMemory);
            };
            Ok(hit)
        }
        None => Ok(false),
    }
}

/// Whether one of some calls in the unit smashes a kept name.
pub(crate) fn hits_sites(
    kept: &Kept,
    caller: &Caller,
    clear: &mut UnitSet,
    sites: &[Site],
) -> Result<bool, NoMemory>
    requires { AreClear (program_of caller.now) (unit_of caller.now) kept.now.guards.now
        kept.now.at clear.old }
    ensures hit { IfOk result (λ hit. hit ≡ list_any (is_kept kept.now.guards.now kept.now.at)
        (flat_map (site_names (program_of caller.now) (unit_of caller.now)) sites.now)) }
    ensures clear { OnOk result (AreClear (program_of caller.now) (unit_of caller.now)
        kept.now.guards.now kept.now.at clear.new) }
{
    for site in sites {
        let Ok(hit) = hits_site(kept, caller, clear, site) else {
            return Err(NoMemory);
        };
        if hit {
            return Ok(true);
        }
    }
    Ok(false)
}
