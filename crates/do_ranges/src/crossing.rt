// 27: ranges that cross.
ghost use Rattle.std.specs.Prelude.{◌≡◌, ◌<◌, length};
ghost use Rattle.fort_syntax.specs.declared.rule.Rule.TheVariants.{CrossedDo};
ghost use Rattle.fort_model.specs.Ranges.{crosses};
ghost use Rattle.unit_faults.specs.Sooner.{first_at};
ghost use Rattle.do_ranges.specs.Known.{IsKnownOf};

use crate::ends::end_at;
use crate::known::Known;
use fort_syntax::{Fault, Rule, Stmt, Unit};

/// Whether a DO or a block IF begins in a range and ends behind it.
fn crosses(unit: &Unit, known: &Known, at: usize, stmt: &Stmt) -> bool
    requires known { IsKnownOf unit.now known.now }
    requires at { at < length unit.now.lines }
    ensures { result ≡ crosses unit.now at stmt.now }
{
    match stmt {
        Stmt::Do(label, ..) => {
            let last = known.labels.point(*label);
            if at < last && last < unit.lines.as_slice().len() {
                known.leaves_do(unit, at, last) || known.leaves_block(unit, at, last)
            } else {
                false
            }
        }
        Stmt::BlockIf(_) => known.leaves_do(unit, at, end_at(unit, &known.turns, at)),
        _ => false,
    }
}

/// The first DO or block IF that crosses a range.
pub(crate) fn crossed(unit: &Unit, known: &Known) -> Option<Fault>
    requires known { IsKnownOf unit.now known.now }
    ensures { result ≡ first_at CrossedDo (crosses unit.now) 0 unit.now.lines }
{
    let lines = unit.lines.as_slice();
    for at in 0..lines.len() {
        if crosses(unit, known, at, &lines[at].stmt) {
            return Some(Fault {
                rule: Rule::CrossedDo,
                card: lines[at].card,
            });
        }
    }
    None
}
