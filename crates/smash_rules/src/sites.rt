// Calls that break a rule.
ghost use Rattle.std.specs.Prelude.{◌≡◌, length, IfOk};
ghost use Rattle.std.specs.List.{list_any};
ghost use Rattle.fort_syntax.specs.WellFormed.{IsWellFormedUnit};
ghost use Rattle.fort_syntax.specs.declared.dialect.Dialect.{Dialect};
ghost use Rattle.smash_laws.specs.Ordered.{with_table};
ghost use Rattle.smash_rules.specs.Judged.{is_no_name, is_twice, is_common};

use crate::common::passes_common;
use call_sites::{Book, DeckBook, Site};
use call_tests::{passes_no_name, passes_twice};
use edge_io::{Keys, NoMemory};
use name_tables::NameSet;
use std::alloc::Global;

fn site_no_name(deck: &DeckBook, rows: &[NameSet], site: &Site) -> bool
    requires { length rows.now ≡ length deck.now.units.now }
    ensures { result ≡ is_no_name (with_table deck.now.units.now rows.now) site.now }
{
    match deck.callee(site) {
        Some(number) => {
            let dummies = deck.book(number).unit.dummies.as_slice();
            passes_no_name(&rows[number], dummies, site.actuals())
        }
        None => false,
    }
}

/// Rule 41 in one of some calls: a smashed dummy gets something else than a bare name.
pub(crate) fn some_no_name(deck: &DeckBook, rows: &[NameSet], sites: &[Site]) -> bool
    requires { length rows.now ≡ length deck.now.units.now }
    ensures { result ≡ list_any (is_no_name (with_table deck.now.units.now rows.now)) sites.now }
{
    for site in sites {
        if site_no_name(deck, rows, site) {
            return true;
        }
    }
    false
}

fn site_twice(
    alloc: Global,
    keys: Keys,
    deck: &DeckBook,
    rows: &[NameSet],
    site: &Site,
) -> Result<bool, NoMemory>
    requires { length rows.now ≡ length deck.now.units.now }
    ensures { IfOk result (λ found. found ≡ is_twice (with_table deck.now.units.now rows.now) site.now) }
{
    match deck.callee(site) {
        Some(number) => {
            let dummies = deck.book(number).unit.dummies.as_slice();
            let found = passes_twice(alloc, keys, &rows[number], dummies, site.actuals())?;
            Ok(found)
        }
        None => Ok(false),
    }
}

/// Rule 42 in one of some calls: a smashed actual stands in another actual too.
pub(crate) fn some_twice(
    alloc: Global,
    keys: Keys,
    deck: &DeckBook,
    rows: &[NameSet],
    sites: &[Site],
) -> Result<bool, NoMemory>
    requires { length rows.now ≡ length deck.now.units.now }
    ensures { IfOk result (λ found. found ≡ list_any
        (is_twice (with_table deck.now.units.now rows.now)) sites.now) }
{
    for site in sites {
        let found = site_twice(alloc, keys, deck, rows, site)?;
        if found {
            return Ok(true);
        }
    }
    Ok(false)
}

fn site_common(
    alloc: Global,
    deck: &DeckBook,
    rows: &[NameSet],
    caller: &Book,
    site: &Site,
) -> Result<bool, NoMemory>
    requires long { length rows.now ≡ length deck.now.units.now }
    requires well { (d : Dialect) × IsWellFormedUnit d caller.now.unit.now }
    ensures { IfOk result (λ found. found ≡ is_common (with_table deck.now.units.now rows.now)
        caller.now.unit.now site.now) }
{
    match deck.callee(site) {
        Some(number) => {
            let callee = deck.book(number);
            let found = passes_common(alloc, caller, callee, &rows[number], site.actuals())?;
            Ok(found)
        }
        None => Ok(false),
    }
}

/// Rule 43 in one of some calls of a unit: what is smashed is in COMMON too.
pub(crate) fn some_common(
    alloc: Global,
    deck: &DeckBook,
    rows: &[NameSet],
    caller: &Book,
    sites: &[Site],
) -> Result<bool, NoMemory>
    requires long { length rows.now ≡ length deck.now.units.now }
    requires well { (d : Dialect) × IsWellFormedUnit d caller.now.unit.now }
    ensures { IfOk result (λ found. found ≡ list_any
        (is_common (with_table deck.now.units.now rows.now) caller.now.unit.now) sites.now) }
{
    for site in sites {
        let found = site_common(alloc, deck, rows, caller, site)?;
        if found {
            return Ok(true);
        }
    }
    Ok(false)
}
