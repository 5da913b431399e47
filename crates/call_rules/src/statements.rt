// The rules on calls that statements break.
ghost use Rattle.std.specs.Prelude.{◌≡◌, ◌<◌, [], length, IfOk, OnOk};
ghost use Rattle.fort_model.specs.CallRules.{is_nobody, lacks_block, mismatches, of_unit};
ghost use Rattle.fort_model.specs.Calls.{callee_of};
ghost use Rattle.call_rules.specs.CallFaults.{program_of, sites_rule, some_lack, some_mismatch, some_unknown, stmt_rule};
ghost use Rattle.call_rules.specs.Cleared.{AreCleared, unit_lacks};
ghost use Rattle.stage_faults.specs.Scans.{first_at_lines};

use crate::unit_set::UnitSet;
use call_sites::{Book, DeckBook, Site, lacks_block, mismatches, sites_of_stmt};
use edge_io::{Keys, NoMemory};
use fort_syntax::{Fault, Line, Rule, Stmt};
use std::alloc::Global;

/// Whether the actuals of a call do not match; a call of no unit has none that could.
fn does_mismatch(deck: &DeckBook, caller: &Book, site: &Site) -> bool
    ensures { result ≡ of_unit (program_of deck.now.units.now)
        (callee_of deck.now.units.now site.now) (mismatches caller.now.unit.now site.now) }
{
    match deck.callee(site) {
        Some(number) => mismatches(deck.book(number), caller, site),
        None => false,
    }
}

/// Whether the unit of a number declares a block that the caller does not. The blocks of a unit that is among those known to
/// declare no other are not gone through again, and a unit that is found to be so is added to them.
fn unit_lacks(
    deck: &DeckBook,
    caller: &Book,
    cleared: &mut UnitSet,
    number: usize,
) -> Result<bool, NoMemory>
    requires within { number < length deck.now.units.now }
    requires cleared { AreCleared deck.now.units.now caller.now.unit.now cleared.old }
    ensures lacks { IfOk result (λ lacks. lacks ≡ unit_lacks deck.now.units.now caller.now.unit.now number) }
    ensures cleared { OnOk result (AreCleared deck.now.units.now caller.now.unit.now cleared.new) }
{
    if cleared.has(number) {
        return Ok(false);
    }
    if lacks_block(deck.book(number), caller) {
        return Ok(true);
    }
    let Ok(()) = cleared.add(number) else {
        return Err(NoMemory);
    };
    Ok(false)
}

/// Whether the unit that a call is of declares a block that the caller does not.
fn does_lack(
    deck: &DeckBook,
    caller: &Book,
    cleared: &mut UnitSet,
    site: &Site,
) -> Result<bool, NoMemory>
    requires { AreCleared deck.now.units.now caller.now.unit.now cleared.old }
    ensures lacks { IfOk result (λ lacks. lacks ≡ of_unit (program_of deck.now.units.now)
        (callee_of deck.now.units.now site.now) (lacks_block caller.now.unit.now)) }
    ensures cleared { OnOk result (AreCleared deck.now.units.now caller.now.unit.now cleared.new) }
{
    match deck.callee(site) {
        Some(number) => {
            let Ok(lacks) = unit_lacks(deck, caller, cleared, number) else {
                return Err(NoMemory);
            };
            Ok(lacks)
        }
        None => Ok(false),
    }
}

fn is_unknown(deck: &DeckBook, site: &Site) -> bool
    ensures { result ≡ is_nobody (callee_of deck.now.units.now site.now) }
{
    deck.callee(site).is_none()
}

fn some_unknown(deck: &DeckBook, sites: &[Site]) -> bool
    ensures { result ≡ some_unknown deck.now.units.now sites.now }
{
    for site in sites {
        if is_unknown(deck, site) {
            return true;
        }
    }
    false
}

fn some_mismatch(deck: &DeckBook, caller: &Book, sites: &[Site]) -> bool
    ensures { result ≡ some_mismatch deck.now.units.now caller.now.unit.now sites.now }
{
    for site in sites {
        if does_mismatch(deck, caller, site) {
            return true;
        }
    }
    false
}

fn some_lack(
    deck: &DeckBook,
    caller: &Book,
    cleared: &mut UnitSet,
    sites: &[Site],
) -> Result<bool, NoMemory>
    requires { AreCleared deck.now.units.now caller.now.unit.now cleared.old }
    ensures lacks { IfOk result (λ lacks. lacks ≡ some_lack deck.now.units.now caller.now.unit.now
        sites.now) }
    ensures cleared { OnOk result (AreCleared deck.now.units.now caller.now.unit.now cleared.new) }
{
    for site in sites {
        let Ok(lacks) = does_lack(deck, caller, cleared, site) else {
            return Err(NoMemory);
        };
        if lacks {
            return Ok(true);
        }
    }
    Ok(false)
}

/// The first rule that some calls in a unit break.
fn sites_rule(
    deck: &DeckBook,
    caller: &Book,
    cleared: &mut UnitSet,
    sites: &[Site],
) -> Result<Option<Rule>, NoMemory>
    requires { AreCleared deck.now.units.now caller.now.unit.now cleared.old }
    ensures rule { IfOk result (λ rule. rule ≡ sites_rule deck.now.units.now caller.now.unit.now sites.now) }
    ensures cleared { OnOk result (AreCleared deck.now.units.now caller.now.unit.now cleared.new) }
{
    if some_unknown(deck, sites) {
        return Ok(Some(Rule::UnknownUnit));
    }
    if some_mismatch(deck, caller, sites) {
        return Ok(Some(Rule::BadArguments));
    }
    let Ok(lacks) = some_lack(deck, caller, cleared, sites) else {
        return Err(NoMemory);
    };
    if lacks {
        return Ok(Some(Rule::BlockMissing));
    }
    Ok(None)
}

/// The first rule that a statement of a unit breaks.
fn stmt_rule(
    alloc: Global,
    deck: &DeckBook,
    caller: &Book,
    cleared: &mut UnitSet,
    stmt: &Stmt,
) -> Result<Option<Rule>, NoMemory>
    requires { AreCleared deck.now.units.now caller.now.unit.now cleared.old }
    ensures rule { IfOk result (λ rule. rule ≡ stmt_rule deck.now.units.now caller.now.unit.now stmt.now) }
    ensures cleared { OnOk result (AreCleared deck.now.units.now caller.now.unit.now cleared.new) }
{
    let Ok(sites) = sites_of_stmt(alloc, caller, stmt) else {
        return Err(NoMemory);
    };
    let Ok(rule) = sites_rule(deck, caller, cleared, sites.as_slice()) else {
        return Err(NoMemory);
    };
    Ok(rule)
}

/// The first fault of the statements of a unit. No answer depends on the keys.
pub(crate) fn lines_fault(
    alloc: Global,
    keys: Keys,
    deck: &DeckBook,
    caller: &Book,
    lines: &[Line],
) -> Result<Option<Fault>, NoMemory>
    ensures { IfOk result (λ fault. fault ≡ first_at_lines
        (stmt_rule deck.now.units.now caller.now.unit.now) lines.now) }
{
    let mut cleared = UnitSet::new(alloc, keys);
    for line in lines {
        let Ok(rule) = stmt_rule(alloc, deck, caller, &mut cleared, &line.stmt) else {
            return Err(NoMemory);
        };
        if let Some(rule) = rule {
            return Ok(Some(Fault {
                rule,
                card: line.card,
            }));
        }
    }
    Ok(None)
}
