// The statements of a unit, one after the other.
ghost use Rattle.std.specs.Prelude.{◌≡◌, IfOk};
ghost use Rattle.std.specs.List.{list_any};
ghost use Rattle.fort_syntax.specs.WellFormed.{IsWellFormedUnit};
ghost use Rattle.fort_syntax.specs.declared.dialect.Dialect.{Dialect};
ghost use Rattle.fort_syntax.specs.declared.rule.Rule.TheVariants.{DoSmashed};
ghost use Rattle.fort_model.specs.Program.{Program};
ghost use Rattle.fort_model.specs.Rules.{breaks_do};
ghost use Rattle.unit_faults.specs.Sooner.{first_at};
ghost use Rattle.unit_points.specs.Labels.{AreLabelsOf};
ghost use Rattle.do_smashes.specs.Clear.{is_do};
ghost use Rattle.do_smashes.specs.Hits.{unit_of, program_of};

use crate::calls::{Caller, Kept};
use crate::guards::Guards;
use crate::loops::keep_do;
use crate::statements::{breaks_do, forget, is_do};
use call_sites::{Book, DeckBook};
use edge_io::{Keys, NoMemory};
use fort_syntax::{Fault, Line, Rule};
use name_tables::NameSet;
use smash_table::UnitSet;
use std::alloc::Global;
use unit_points::Labels;

/// The first statement that breaks rule 29.
fn first_smash(
    alloc: Global,
    keys: Keys,
    caller: &Caller,
    labels: &Labels,
) -> Result<Option<Fault>, NoMemory>
    requires labels { AreLabelsOf (unit_of caller.now).lines labels.now }
    requires well { (d : Dialect) × IsWellFormedUnit d (unit_of caller.now) }
    ensures { IfOk result (λ fault. fault ≡ first_at DoSmashed (breaks_do (program_of caller.now)
        (unit_of caller.now)) 0 (unit_of caller.now).lines) }
{
    let unit = caller.book.unit;
    let lines = unit.lines.as_slice();
    let mut guards = Guards::new(alloc, keys);
    let mut clear = UnitSet::new(alloc, keys);
    for at in 0..lines.len() {
        let line = &lines[at];
        let kept = Kept {
            guards: &guards,
            at,
        };
        let Ok(broken) = breaks_do(alloc, &kept, caller, &mut clear, &line.stmt) else {
            return Err(NoMemory);
        };
        if broken {
            return Ok(Some(Fault {
                rule: Rule::DoSmashed,
                card: line.card,
            }));
        }
        forget(alloc, keys, &mut clear, &line.stmt);
        let Ok(()) = keep_do(&mut guards, unit, labels, at, &line.stmt) else {
            return Err(NoMemory);
        };
    }
    Ok(None)
}

/// Whether there is a DO among some statements.
fn has_do(lines: &[Line]) -> bool
    ensures { result ≡ list_any (λ line. is_do line.stmt) lines.now }
{
    for line in lines {
        if is_do(&line.stmt) {
            return true;
        }
    }
    false
}

/// The first fault of a unit by rule 29, or None where it keeps it: a statement in the range of a DO smashes a name of that DO,
/// its variable or one of its parameters; or a DO has its variable as a parameter. The rows have the names that each unit of the
/// deck smashes. A unit without a DO keeps it. Else it takes time for each statement and each
/// actual, and for what a called unit smashes, this once between two DOs.
/// No answer depends on the keys.
pub fn smashed_in_do(
    alloc: Global,
    keys: Keys,
    deck: &DeckBook,
    rows: &[NameSet],
    caller: &Book,
) -> Result<Option<Fault>, NoMemory>
    requires { (d : Dialect) × IsWellFormedUnit d caller.now.unit.now }
    ensures { IfOk result (λ fault. (p : Program) → p.units ≡ deck.now.units.now
        → p.smashes ≡ rows.now → fault ≡ first_at DoSmashed (breaks_do p caller.now.unit.now)
        0 caller.now.unit.now.lines) }
{
    let lines = caller.unit.lines.as_slice();
    if !has_do(lines) {
        return Ok(None);
    }
    let labels = Labels::new(alloc, lines)?;
    let from = Caller {
        deck,
        rows,
        book: caller,
    };
    let Ok(fault) = first_smash(alloc, keys, &from, &labels) else {
        return Err(NoMemory);
    };
    Ok(fault)
}
