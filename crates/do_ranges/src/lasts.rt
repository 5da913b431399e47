// 26: the last statement of a DO.
ghost use Rattle.std.specs.Prelude.{◌≡◌, ◌<◌, length};
ghost use Rattle.fort_syntax.specs.declared.rule.Rule.TheVariants.{BadLastOfDo};
ghost use Rattle.fort_model.specs.Ranges.{is_jump, is_bad_last, has_bad_last};
ghost use Rattle.unit_points.specs.Labels.{AreLabelsOf};
ghost use Rattle.unit_faults.specs.Sooner.{first_at};

use fort_syntax::{Fault, Rule, Stmt, Unit};
use unit_points::Labels;

fn is_jump(stmt: &Stmt) -> bool
    ensures { result ≡ is_jump stmt.now }
{
    matches!(
        stmt,
        Stmt::GoTo(_) | Stmt::Computed(..) | Stmt::ArithIf(..) | Stmt::Return
    )
}

/// Whether a statement may not end a DO.
fn is_bad_last(stmt: &Stmt) -> bool
    ensures { result ≡ is_bad_last stmt.now }
{
    match stmt {
        Stmt::Do(..) | Stmt::BlockIf(_) | Stmt::ElseIf(_) | Stmt::Else | Stmt::EndIf => true,
        Stmt::LogicalIf(_, carried) => is_jump(carried.get()),
        _ => is_jump(stmt),
    }
}

fn has_bad_last(unit: &Unit, labels: &Labels, at: usize, stmt: &Stmt) -> bool
    requires labels { AreLabelsOf unit.now.lines labels.now }
    ensures { result ≡ has_bad_last unit.now at stmt.now }
{
    let Stmt::Do(label, ..) = stmt else {
        return false;
    };
    let lines = unit.lines.as_slice();
    let last = labels.point(*label);
    if at < last && last < lines.len() {
        is_bad_last(&lines[last].stmt)
    } else {
        true
    }
}

/// The first DO that ends badly.
pub(crate) fn bad_last(unit: &Unit, labels: &Labels) -> Option<Fault>
    requires labels { AreLabelsOf unit.now.lines labels.now }
    ensures { result ≡ first_at BadLastOfDo (has_bad_last unit.now) 0 unit.now.lines }
{
    let lines = unit.lines.as_slice();
    for at in 0..lines.len() {
        if has_bad_last(unit, labels, at, &lines[at].stmt) {
            return Some(Fault {
                rule: Rule::BadLastOfDo,
                card: lines[at].card,
            });
        }
    }
    None
}
