// 28: jumps into ranges.
ghost use Rattle.std.specs.Prelude.{◌≡◌, ◌<◌, length, slice_get};
ghost use Rattle.std.specs.List.{list_any};
ghost use Rattle.fort_syntax.specs.declared.rule.Rule.TheVariants.{JumpIntoDo};
ghost use Rattle.fort_model.specs.Flow.{target};
ghost use Rattle.fort_model.specs.Ranges.{is_branch_line, is_bad_jump, jumps_badly};
ghost use Rattle.unit_faults.specs.Sooner.{first_at};
ghost use Rattle.do_ranges.specs.Known.{IsKnownOf};

use crate::known::Known;
use fort_syntax::{Fault, Line, Rule, Stmt, Unit};

/// Whether an ELSE IF or ELSE stands at a point.
fn is_branch_line(lines: &[Line], at: usize) -> bool
    ensures { result ≡ is_branch_line (slice_get lines.now at) }
{
    at < lines.len() && matches!(lines[at].stmt, Stmt::ElseIf(_) | Stmt::Else)
}

/// Whether a jump from a point to a label is bad.
fn is_bad_jump(unit: &Unit, known: &Known, at: usize, label: u32) -> bool
    requires known { IsKnownOf unit.now known.now }
    requires at { at < length unit.now.lines }
    ensures { result ≡ is_bad_jump unit.now at (target unit.now.lines label) }
{
    let to = known.labels.point(label);
    known.enters_do(unit, at, to)
        || known.enters_block(unit, at, to)
        || is_branch_line(unit.lines.as_slice(), to)
}

fn has_bad_jump(unit: &Unit, known: &Known, at: usize, labels: &[u32]) -> bool
    requires known { IsKnownOf unit.now known.now }
    requires at { at < length unit.now.lines }
    ensures { result ≡ list_any (λ l. is_bad_jump unit.now at (target unit.now.lines l)) labels.now }
{
    for label in labels {
        if is_bad_jump(unit, known, at, *label) {
            return true;
        }
    }
    false
}

/// Whether a statement at a point has a bad jump.
fn jumps_badly(unit: &Unit, known: &Known, at: usize, stmt: &Stmt) -> bool
    requires known { IsKnownOf unit.now known.now }
    requires at { at < length unit.now.lines }
    ensures { result ≡ jumps_badly unit.now at stmt.now }
{
    match stmt {
        Stmt::GoTo(label) => has_bad_jump(unit, known, at, &[*label]),
        Stmt::Computed(labels, _) => has_bad_jump(unit, known, at, labels.as_slice()),
        Stmt::ArithIf(_, l, m, n) => has_bad_jump(unit, known, at, &[*l, *m, *n]),
        Stmt::LogicalIf(_, carried) => jumps_badly(unit, known, at, carried.get()),
        _ => false,
    }
}

/// The first statement with a bad jump.
pub(crate) fn bad_jump(unit: &Unit, known: &Known) -> Option<Fault>
    requires known { IsKnownOf unit.now known.now }
    ensures { result ≡ first_at JumpIntoDo (jumps_badly unit.now) 0 unit.now.lines }
{
    let lines = unit.lines.as_slice();
    for at in 0..lines.len() {
        if jumps_badly(unit, known, at, &lines[at].stmt) {
            return Some(Fault {
                rule: Rule::JumpIntoDo,
                card: lines[at].card,
            });
        }
    }
    None
}
