// What statements smash.
ghost use Rattle.std.specs.Prelude.{◌≡◌, ◌<◌, [], length, flat_map, Some, IfOk, OnOk};
ghost use Rattle.name_tables.specs.Sets.{with_names};
ghost use Rattle.smash_laws.specs.Ordered.{with_table};
ghost use Rattle.smash_table.specs.Callers.{unit_of, program_of};
ghost use Rattle.smash_table.specs.Seen.{AreSeen};
ghost use Rattle.smash_table.specs.Smashed.{names_of_callee, shared_by, site_names, stmt_names, unit_names};

use crate::calls::add_shared;
use crate::unit_set::UnitSet;
use call_sites::{Book, DeckBook, Site, sites_of_stmt};
use edge_io::{Keys, NoMemory};
use fort_syntax::{Expr, Line, Stmt};
use name_tables::NameSet;
use smash_sets::{add_actuals, add_set};
use std::alloc::Global;

/// A unit that calls others: all units, the names that each smashes, and the unit itself.
#[derive(Drop)]
struct Caller<'a> {
    deck: &'a DeckBook<'a>,
    rows: &'a [NameSet],
    book: &'a Book<'a>,
}

/// What a unit is found to smash, and the units whose smashed COMMON entities are among that already.
#[derive(Drop)]
struct Found {
    set: NameSet,
    seen: UnitSet,
}

/// Adds the COMMON entities of a unit that the unit of a number smashes. The names that this one smashes are gone through once.
fn add_commons(found: &mut Found, caller: &Caller, number: usize) -> Result<(), NoMemory>
    requires long { length caller.now.rows.now ≡ length caller.now.deck.now.units.now }
    requires within { number < length caller.now.deck.now.units.now }
    requires seen { AreSeen (program_of caller.now) (unit_of caller.now) found.old.seen found.old.set }
    ensures names { OnOk result (found.new.set ≡ with_names found.old.set
        (shared_by (program_of caller.now) (unit_of caller.now) number)) }
    ensures seen { OnOk result (AreSeen (program_of caller.now) (unit_of caller.now) found.new.seen
        found.new.set) }
{
    if found.seen.has(number) {
        return Ok(());
    }
    let callee = caller.deck.book(number);
    let Ok(()) = add_shared(
        &mut found.set,
        caller.book,
        callee,
        caller.rows[number].names(),
    ) else {
        return Err(NoMemory);
    };
    let Ok(()) = found.seen.add(number) else {
        return Err(NoMemory);
    };
    Ok(())
}

/// Adds what a call of the unit of a number smashes of its caller's names: the bare names that smashed dummies get, and the
/// COMMON entities of both units that the called one smashes.
fn add_call(
    found: &mut Found,
    caller: &Caller,
    number: usize,
    actuals: &[Expr],
) -> Result<(), NoMemory>
    requires long { length caller.now.rows.now ≡ length caller.now.deck.now.units.now }
    requires within { number < length caller.now.deck.now.units.now }
    requires seen { AreSeen (program_of caller.now) (unit_of caller.now) found.old.seen found.old.set }
    ensures names { OnOk result (found.new.set ≡ with_names found.old.set
        (names_of_callee (program_of caller.now) (unit_of caller.now) actuals.now (Some number))) }
    ensures seen { OnOk result (AreSeen (program_of caller.now) (unit_of caller.now) found.new.seen
        found.new.set) }
{
    let dummies = caller.deck.book(number).unit.dummies.as_slice();
    let Ok(()) = add_actuals(&mut found.set, &caller.rows[number], dummies, actuals) else {
        return Err(NoMemory);
    };
    add_commons(found, caller, number)
}

/// Adds what a call in a unit smashes, where each unit that it calls smashes the names of its row.
fn add_site(found: &mut Found, caller: &Caller, site: &Site) -> Result<(), NoMemory>
    requires long { length caller.now.rows.now ≡ length caller.now.deck.now.units.now }
    requires seen { AreSeen (program_of caller.now) (unit_of caller.now) found.old.seen found.old.set }
    ensures names { OnOk result (found.new.set ≡ with_names found.old.set
        (site_names (program_of caller.now) (unit_of caller.now) site.now)) }
    ensures seen { OnOk result (AreSeen (program_of caller.now) (unit_of caller.now) found.new.seen
        found.new.set) }
{
    match caller.deck.callee(site) {
        Some(number) => add_call(found, caller, number, site.actuals()),
        None => Ok(()),
    }
}

/// Adds what some calls smash.
fn add_sites(found: &mut Found, caller: &Caller, sites: &[Site]) -> Result<(), NoMemory>
    requires long { length caller.now.rows.now ≡ length caller.now.deck.now.units.now }
    requires seen { AreSeen (program_of caller.now) (unit_of caller.now) found.old.seen found.old.set }
    ensures names { OnOk result (found.new.set ≡ with_names found.old.set
        (flat_map (site_names (program_of caller.now) (unit_of caller.now)) sites.now)) }
    ensures seen { OnOk result (AreSeen (program_of caller.now) (unit_of caller.now) found.new.seen
        found.new.set) }
{
    for site in sites {
        let Ok(()) = add_site(found, caller, site) else {
            return Err(NoMemory);
        };
    }
    Ok(())
}

/// Adds what a statement smashes.
fn add_stmt(alloc: Global, found: &mut Found, caller: &Caller, stmt: &Stmt) -> Result<(), NoMemory>
    requires long { length caller.now.rows.now ≡ length caller.now.deck.now.units.now }
    requires seen { AreSeen (program_of caller.now) (unit_of caller.now) found.old.seen found.old.set }
    ensures names { OnOk result (found.new.set ≡ with_names found.old.set
        (stmt_names (program_of caller.now) (unit_of caller.now) stmt.now)) }
    ensures seen { OnOk result (AreSeen (program_of caller.now) (unit_of caller.now) found.new.seen
        found.new.set) }
{
    let Ok(()) = add_set(&mut found.set, stmt) else {
        return Err(NoMemory);
    };
    let Ok(sites) = sites_of_stmt(alloc, caller.book, stmt) else {
        return Err(NoMemory);
    };
    add_sites(found, caller, sites.as_slice())
}

/// Adds what some statements of a unit smash.
fn add_lines(
    alloc: Global,
    found: &mut Found,
    caller: &Caller,
    lines: &[Line],
) -> Result<(), NoMemory>
    requires long { length caller.now.rows.now ≡ length caller.now.deck.now.units.now }
    requires seen { AreSeen (program_of caller.now) (unit_of caller.now) found.old.seen found.old.set }
    ensures { OnOk result (found.new.set ≡ with_names found.old.set
        (flat_map (λ line. stmt_names (program_of caller.now) (unit_of caller.now) line.stmt)
        lines.now)) }
{
    for line in lines {
        let Ok(()) = add_stmt(alloc, found, caller, &line.stmt) else {
            return Err(NoMemory);
        };
    }
    Ok(())
}

/// What the statements of a unit smash.
#[tactic(auto, using(crate::proofs::Seen::none_seen))]
pub(crate) fn smashed_by(
    alloc: Global,
    keys: Keys,
    deck: &DeckBook,
    rows: &[NameSet],
    book: &Book,
) -> Result<NameSet, NoMemory>
    requires { length rows.now ≡ length deck.now.units.now }
    ensures { IfOk result (λ set. set ≡ with_names []
        (unit_names (with_table deck.now.units.now rows.now) book.now.unit.now)) }
{
    let caller = Caller { deck, rows, book };
    let mut found = Found {
        set: NameSet::new(alloc, keys),
        seen: UnitSet::new(alloc, keys),
    };
    let Ok(()) = add_lines(alloc, &mut found, &caller, book.unit.lines.as_slice()) else {
        return Err(NoMemory);
    };
    Ok(found.set)
}
