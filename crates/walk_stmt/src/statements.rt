// Statements, under the choices of a path.
ghost use Rattle.std.specs.Prelude.{◌≡◌, ◌<◌, Some, length, slice_get, OnOk};
ghost use Rattle.fort_syntax.specs.declared.unit.Line.{Line};
ghost use Rattle.fort_notes.specs.Assertions.{Notes};
ghost use Rattle.fort_model.specs.Graphs.{IsBehind, IsGraphOf, IsTargetOf};
ghost use Rattle.fort_model.specs.Program.{Program};
ghost use Rattle.fort_model.specs.WalkStmt as forms;
ghost use Rattle.fort_syntax.specs.declared.stmt.Stmt.TheViews as stmt;
ghost use Rattle.path_scene.specs.Scenes.{IsReady};
ghost use Rattle.walk_stmt.specs.Parts as parts;
ghost use Rattle.walk_setting.specs.Settings.{PerformsIn};
ghost use Rattle.walk_state.specs.Moments.{Follows, IsWalk, moment};

use edge_io::NoMemory;
use fort_syntax::{Expr, Name, Stmt};
use walk_assign::assign;
use walk_begins::{DoHead, begin_do};
use walk_calls::call;
use walk_choices::{condition, is_false, is_true, select, sign};
use walk_expr::{operands, value};
use walk_facts::check_result;
use walk_flow::{Standing, UnitFlow};
use walk_state::Walk;
use walk_tests::behind;

// An assignment.
fn perform_assignment(
    walk: &mut Walk,
    at: &Standing,
    left: &Expr,
    right: &Expr,
    choices: &[usize],
) -> Result<(), NoMemory>
    requires well { IsWalk walk.old }
    requires ready { (p : Program) × IsReady walk.old.pool at.now.flow.now.setting.now.scene.now p }
    requires target { IsBehind at.now.flow.now.setting.now.book.now.unit.now
        at.now.flow.now.graph.now.forks at.now.point at.now.target }
    ensures on { Follows walk.old walk.new }
    ensures did { OnOk result (PerformsIn walk.old.pool at.now.flow.now.setting.now
        (moment walk.old) (λ w. parts.of_assignment w at.now.card at.now.point
        (moment walk.old).now left.now right.now choices.now) (moment walk.new)) }
{
    let term = value(walk, &at.at_card(), right)?;
    assign(walk, &at.at_card(), left, term)?;
    behind(walk, at, choices)
}

// A CALL.
fn perform_call(
    walk: &mut Walk,
    at: &Standing,
    called: &Name,
    args: &[Expr],
    choices: &[usize],
) -> Result<(), NoMemory>
    requires well { IsWalk walk.old }
    requires ready { (p : Program) × IsReady walk.old.pool at.now.flow.now.setting.now.scene.now p }
    requires target { IsBehind at.now.flow.now.setting.now.book.now.unit.now
        at.now.flow.now.graph.now.forks at.now.point at.now.target }
    ensures on { Follows walk.old walk.new }
    ensures did { OnOk result (PerformsIn walk.old.pool at.now.flow.now.setting.now
        (moment walk.old) (λ w. parts.of_call w at.now.card at.now.point (moment walk.old).now
        called.now args.now choices.now) (moment walk.new)) }
{
    let actuals = operands(walk, &at.at_card(), args)?;
    let callee = at.flow.setting.subroutine(called);
    call(walk, at.flow.setting, at.card, callee, actuals.as_slice())?;
    behind(walk, at, choices)
}

// A RETURN, which needs the value of a FUNCTION.
fn perform_return(walk: &mut Walk, at: &Standing) -> Result<(), NoMemory>
    requires { IsWalk walk.old }
    ensures on { Follows walk.old walk.new }
    ensures did { OnOk result (PerformsIn walk.old.pool at.now.flow.now.setting.now
        (moment walk.old) (λ w. parts.of_return w at.now.card at.now.point (moment walk.old).now)
        (moment walk.new)) }
{
    let unit = at.flow.setting.book.unit;
    if unit.sort.is_none() {
        return Ok(());
    }
    check_result(walk, at.card, &unit.name)
}

// A logical IF behind its condition, which is false.
fn pass_carried(walk: &mut Walk, at: &Standing, e: &Expr, choices: &[usize]) -> Result<(), NoMemory>
    requires well { IsWalk walk.old }
    requires ready { (p : Program) × IsReady walk.old.pool at.now.flow.now.setting.now.scene.now p }
    requires target { IsBehind at.now.flow.now.setting.now.book.now.unit.now
        at.now.flow.now.graph.now.forks at.now.point at.now.target }
    ensures on { Follows walk.old walk.new }
    ensures did { OnOk result (PerformsIn walk.old.pool at.now.flow.now.setting.now
        (moment walk.old) (λ w. parts.of_passed w at.now.card at.now.point
        (moment walk.old).now e.now choices.now) (moment walk.new)) }
{
    is_false(walk, &at.at_card(), e)?;
    behind(walk, at, choices)
}

// A logical IF, whose statement is performed where the condition is true.
#[cycle(perform)]
fn perform_logical(
    walk: &mut Walk,
    at: &Standing,
    carried: &Stmt,
    e: &Expr,
    choices: &[usize],
) -> Result<(), NoMemory>
    requires well { IsWalk walk.old }
    requires ready { (p : Program) × IsReady walk.old.pool at.now.flow.now.setting.now.scene.now p }
    requires target { IsTargetOf at.now.flow.now.setting.now.scene.now.dialect
        at.now.flow.now.setting.now.book.now.unit.now at.now.flow.now.graph.now.forks at.now.point
        (stmt.LogicalIf e.now carried.now) at.now.target }
    ensures on { Follows walk.old walk.new }
    ensures did { OnOk result (PerformsIn walk.old.pool at.now.flow.now.setting.now
        (moment walk.old) (λ w. forms.performed w at.now.card at.now.point (moment walk.old).now
        (stmt.LogicalIf e.now carried.now) choices.now) (moment walk.new)) }
{
    let [choice, more @ ..] = choices else {
        return Ok(());
    };
    if *choice != 1 {
        let Some(on) = at.turn(1) else {
            return Ok(());
        };
        return pass_carried(walk, &at.to(on), e, more);
    }
    let Some(then) = at.turn(0) else {
        return Ok(());
    };
    is_true(walk, &at.at_card(), e)?;
    perform(walk, &at.to(then), carried, more)
}

// A statement.
#[cycle(perform)]
fn perform(walk: &mut Walk, at: &Standing, stmt: &Stmt, choices: &[usize]) -> Result<(), NoMemory>
    requires well { IsWalk walk.old }
    requires ready { (p : Program) × IsReady walk.old.pool at.now.flow.now.setting.now.scene.now p }
    requires target { IsTargetOf at.now.flow.now.setting.now.scene.now.dialect
        at.now.flow.now.setting.now.book.now.unit.now at.now.flow.now.graph.now.forks at.now.point
        stmt.now at.now.target }
    ensures on { Follows walk.old walk.new }
    ensures did { OnOk result (PerformsIn walk.old.pool at.now.flow.now.setting.now
        (moment walk.old) (λ w. forms.performed w at.now.card at.now.point
        (moment walk.old).now stmt.now choices.now) (moment walk.new)) }
{
    match stmt {
        Stmt::Assign(left, right) => perform_assignment(walk, at, left, right, choices),
        Stmt::Computed(labels, x) => select(walk, at, labels.as_slice(), x, choices),
        Stmt::ArithIf(e, ..) => sign(walk, &at.at_card(), e, choices),
        Stmt::LogicalIf(e, carried) => perform_logical(walk, at, carried.get(), e, choices),
        Stmt::Do(label, variable, first, last, step) => {
            let head = DoHead {
                label: *label,
                variable: *variable,
                first: *first,
                last: *last,
                step: *step,
            };
            begin_do(walk, at, &head, choices)
        }
        Stmt::Continue | Stmt::Else | Stmt::EndIf => behind(walk, at, choices),
        Stmt::Call(called, args) => perform_call(walk, at, called, args.as_slice(), choices),
        Stmt::Return => perform_return(walk, at),
        Stmt::BlockIf(e) | Stmt::ElseIf(e) => condition(walk, &at.at_card(), e, choices),
        _ => Ok(()),
    }
}

/// Performs the statement at a point of a unit, under choices: those that a path makes behind it, up
/// to the next statement. What they say is met as facts, and names stand for what they stand for
/// behind the statement. It costs the statement's size and the number of choices.
pub fn performed(
    walk: &mut Walk,
    flow: &UnitFlow,
    point: usize,
    choices: &[usize],
) -> Result<(), NoMemory>
    requires well { IsWalk walk.old }
    requires ready { (p : Program) × IsReady walk.old.pool flow.now.setting.now.scene.now p }
    requires within { point < length flow.now.setting.now.book.now.unit.now.lines }
    requires graph { (notes : Notes) × IsGraphOf flow.now.setting.now.scene.now.dialect
        flow.now.setting.now.book.now.unit.now notes flow.now.graph.now }
    ensures on { Follows walk.old walk.new }
    ensures did { OnOk result ((line : Line)
        → slice_get flow.now.setting.now.book.now.unit.now.lines point ≡ Some line
        → PerformsIn walk.old.pool flow.now.setting.now (moment walk.old)
        (λ w. forms.performed w line.card point (moment walk.old).now line.stmt choices.now)
        (moment walk.new)) }
{
    let line = flow.line(point);
    let at = Standing {
        flow,
        card: line.card,
        point,
        target: flow.start(point),
    };
    perform(walk, &at, &line.stmt, choices)
}
