// The first fault in the statements of a unit.
ghost use Rattle.std.specs.Prelude.{◌≡◌, length, IfOk};
ghost use Rattle.fort_syntax.specs.WellFormed.{IsWellFormedUnit};
ghost use Rattle.fort_syntax.specs.declared.dialect.Dialect.{Dialect};
ghost use Rattle.smash_laws.specs.Ordered.{with_table};
ghost use Rattle.stage_faults.specs.Scans.{first_at_lines};
ghost use Rattle.smash_rules.specs.Judged.{told_of_call, stmt_rule};

use crate::sites::{some_common, some_no_name, some_twice};
use call_sites::{Book, DeckBook, sites_of_stmt};
use edge_io::{Keys, NoMemory};
use fort_syntax::{Fault, Rule, Stmt};
use name_tables::NameSet;
use std::alloc::Global;

fn told_of_call(no_name: bool, twice: bool, common: bool) -> Option<Rule>
    ensures { result ≡ told_of_call no_name twice common }
{
    if no_name {
        Some(Rule::SmashedNotName)
    } else if twice {
        Some(Rule::SmashedTwice)
    } else if common {
        Some(Rule::SmashedCommon)
    } else {
        None
    }
}

/// The first of the rules 41 to 43 that is broken in a statement.
fn stmt_rule(
    alloc: Global,
    keys: Keys,
    deck: &DeckBook,
    rows: &[NameSet],
    caller: &Book,
    stmt: &Stmt,
) -> Result<Option<Rule>, NoMemory>
    requires long { length rows.now ≡ length deck.now.units.now }
    requires well { (d : Dialect) × IsWellFormedUnit d caller.now.unit.now }
    ensures { IfOk result (λ rule. rule ≡ stmt_rule (with_table deck.now.units.now rows.now)
        caller.now.unit.now stmt.now) }
{
    let sites = sites_of_stmt(alloc, caller, stmt)?;
    let calls = sites.as_slice();
    let twice = some_twice(alloc, keys, deck, rows, calls)?;
    let common = some_common(alloc, deck, rows, caller, calls)?;
    let no_name = some_no_name(deck, rows, calls);
    Ok(told_of_call(no_name, twice, common))
}

/// The first fault in the statements of a unit.
pub(crate) fn fault_at_lines(
    alloc: Global,
    keys: Keys,
    deck: &DeckBook,
    rows: &[NameSet],
    caller: &Book,
) -> Result<Option<Fault>, NoMemory>
    requires long { length rows.now ≡ length deck.now.units.now }
    requires well { (d : Dialect) × IsWellFormedUnit d caller.now.unit.now }
    ensures { IfOk result (λ fault. fault ≡ first_at_lines
        (stmt_rule (with_table deck.now.units.now rows.now) caller.now.unit.now)
        caller.now.unit.now.lines) }
{
    let lines = caller.unit.lines.as_slice();
    for line in lines {
        let told = stmt_rule(alloc, keys, deck, rows, caller, &line.stmt)?;
        if let Some(rule) = told {
            return Ok(Some(Fault {
                rule,
                card: line.card,
            }));
        }
    }
    Ok(None)
}
