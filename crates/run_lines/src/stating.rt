// The code of statements.
ghost use Rattle.std.specs.Prelude.{◌≡◌, ◌<◌, ◌++◌, length, OnOk};
ghost use Rattle.fort_model.specs.Calls.{sites_of};
ghost use Rattle.fort_syntax.specs.declared.stmt.Stmt.TheVariants as stmt;
ghost use Rattle.fort_model.specs.Flow.{next_branch, next_point};
ghost use Rattle.unit_tables.specs.Tables.{ArePointsOf};
ghost use Rattle.run_coding.specs.Scopes.{unit_of, with_calls};
ghost use Rattle.run_lines.specs.Stated.{aims};
ghost use Rattle.run_lines.specs.Spots.{pushed_at};

use crate::draft::{Draft, push, push_targets, push_three};
use crate::forms::{code_call, code_sides, code_values};
use edge_io::NoMemory;
use fort_syntax::{Expr, Line, Stmt};
use run_coding::{Scope, code_of};
use run_shapes::Instr;
use std::alloc::Global;
use unit_tables::LabelPoints;

/// A unit with tables, whose statements are made into code.
pub struct Lines<'a> {
    pub alloc: Global,
    pub scope: &'a Scope<'a>,
    pub points: &'a LabelPoints,
    ghost points_are: { ArePointsOf scope.now.book.now.unit.now.lines points.now },
}

/// Where a statement stands, how the flow goes on behind it and behind the range of a DO, and where it leads.
#[derive(Drop)]
pub struct Spot {
    pub point: usize,
    pub behind: Instr,
    pub over: Instr,
    pub next: usize,
    pub branch: usize,
}

impl<'a> Lines<'a> {
    fn lines(&self) -> &'a [Line]
        ensures { result.now ≡ (unit_of self.now.scope.now).lines }
    {
        self.scope.book.unit.lines.as_slice()
    }
}

/// Adds the code of a condition, and two ways behind it.
fn code_ways(lines: &Lines, spot: &Spot, draft: &mut Draft, e: &Expr) -> Result<(), NoMemory>
    requires next { spot.now.next ≡ next_point (unit_of lines.now.scope.now) spot.now.point }
    requires branch { spot.now.branch ≡ next_branch (unit_of lines.now.scope.now) spot.now.point }
    ensures targets { OnOk result (draft.new.targets.items ≡ draft.old.targets.items) }
    ensures calls { OnOk result (draft.new.calls.items ≡ with_calls lines.now.scope.now
        (sites_of (unit_of lines.now.scope.now) (stmt.BlockIf e.now)) draft.old.calls.items) }
    ensures code { OnOk result (draft.new.instrs.items ≡ draft.old.instrs.items ++ pushed_at
        lines.now.scope.now spot.now draft.old (stmt.BlockIf e.now)) }
{
    code_of(lines.scope, &mut draft.calls, &mut draft.instrs, true, e)?;
    push(&mut draft.instrs, Instr::Ways(spot.next, spot.branch))
}

/// Adds the code of a statement, its calls and its targets.
pub fn code_stmt(lines: &Lines, spot: &Spot, draft: &mut Draft, stmt: &Stmt) -> Result<(), NoMemory>
    requires within { spot.now.point < length (unit_of lines.now.scope.now).lines }
    requires next { spot.now.next ≡ next_point (unit_of lines.now.scope.now) spot.now.point }
    requires branch { spot.now.branch ≡ next_branch (unit_of lines.now.scope.now) spot.now.point }
    ensures targets { OnOk result (draft.new.targets.items ≡ draft.old.targets.items ++ aims
        (unit_of lines.now.scope.now) stmt.now) }
    ensures calls { OnOk result (draft.new.calls.items ≡ with_calls lines.now.scope.now
        (sites_of (unit_of lines.now.scope.now) stmt.now) draft.old.calls.items) }
    ensures code { OnOk result (draft.new.instrs.items ≡ draft.old.instrs.items ++ pushed_at
        lines.now.scope.now spot.now draft.old stmt.now) }
{
    let scope = lines.scope;
    match stmt {
        Stmt::Assign(left, right) => {
            code_sides(lines.alloc, scope, draft, left, right)?;
            push(&mut draft.instrs, Instr::Assigned)?;
            push(&mut draft.instrs, spot.behind)
        }
        Stmt::GoTo(label) => push(
            &mut draft.instrs,
            Instr::Jump(lines.points.point(lines.lines(), *label)),
        ),
        Stmt::Computed(labels, x) => {
            let place = draft.targets.len();
            let labels = labels.as_slice();
            push_targets(&mut draft.targets, lines.points, lines.lines(), labels)?;
            push(&mut draft.instrs, Instr::Load(scope.slot(x)))?;
            push(&mut draft.instrs, Instr::Choose(place, labels.len()))?;
            push(&mut draft.instrs, spot.behind)
        }
        Stmt::ArithIf(e, l, m, n) => {
            let place = draft.targets.len();
            push_three(
                &mut draft.targets,
                lines.points,
                lines.lines(),
                (*l, *m, *n),
            )?;
            code_of(scope, &mut draft.calls, &mut draft.instrs, true, e)?;
            push(&mut draft.instrs, Instr::Signs(place))
        }
        Stmt::LogicalIf(e, carried) => {
            code_of(scope, &mut draft.calls, &mut draft.instrs, true, e)?;
            push(&mut draft.instrs, Instr::Turn)?;
            push(&mut draft.instrs, spot.behind)?;
            code_stmt(lines, spot, draft, carried.get())
        }
        Stmt::Do(_, x, first, last, by) => {
            code_values(scope, &mut draft.instrs, *first, *last, *by)?;
            push(
                &mut draft.instrs,
                Instr::BeginDo(scope.slot(x), spot.point + 1),
            )?;
            push(&mut draft.instrs, spot.over)
        }
        Stmt::Call(f, actuals) => {
            code_call(scope, draft, f, actuals.as_slice())?;
            push(&mut draft.instrs, spot.behind)
        }
        Stmt::Return => {
            push(&mut draft.instrs, Instr::ResultOf)?;
            push(&mut draft.instrs, Instr::Jump(lines.lines().len()))
        }
        Stmt::BlockIf(e) | Stmt::ElseIf(e) => code_ways(lines, spot, draft, e),
        Stmt::Continue | Stmt::Else | Stmt::EndIf => push(&mut draft.instrs, spot.behind),
        _ => push(&mut draft.instrs, Instr::Stop),
    }
}
