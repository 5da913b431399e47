// Whether a DO is entered.
ghost use Rattle.std.specs.Prelude.{OnOk};
ghost use Rattle.formula.specs.Pool.{IsIn, tree_of};
ghost use Rattle.fort_syntax.specs.declared.dialect.Dialect.TheVariants.{SeventySeven};
ghost use Rattle.fort_model.specs.Flow as flow;
ghost use Rattle.fort_model.specs.Graphs.{IsDoTarget};
ghost use Rattle.fort_model.specs.WalkStmt as forms;
ghost use Rattle.walk_setting.specs.Settings.{PerformsIn};
ghost use Rattle.walk_state.specs.Moments.{Follows, IsWalk, moment};

use crate::limits::Limits;
use edge_io::NoMemory;
use walk_facts::{take_at_most, take_less};
use walk_flow::Standing;
use walk_state::Walk;
use walk_tests::tests_from;

// Behind a DO that is not entered the DOs around it are tested that have the same last statement.
fn pass_over(walk: &mut Walk, at: &Standing, label: u32, choices: &[usize]) -> Result<(), NoMemory>
    requires well { IsWalk walk.old }
    requires target { IsDoTarget SeventySeven at.now.flow.now.setting.now.book.now.unit.now
        at.now.flow.now.graph.now.forks
        (flow.target at.now.flow.now.setting.now.book.now.unit.now.lines label) at.now.point
        at.now.target }
    ensures on { Follows walk.old walk.new }
    ensures did { OnOk result (PerformsIn walk.old.pool at.now.flow.now.setting.now
        (moment walk.old) (λ w. forms.passed_over w (flow.target w.unit.lines label) at.now.point
        (moment walk.old).now choices.now) (moment walk.new)) }
{
    let Some(target) = at.turn(1) else {
        return Ok(());
    };
    let over = Standing {
        flow: at.flow,
        card: at.flow.card_of_label(label),
        point: at.point,
        target,
    };
    tests_from(walk, &over, choices)
}

/// Whether a DO is entered, which is a choice under 77.
pub(crate) fn enter(
    walk: &mut Walk,
    at: &Standing,
    label: u32,
    limits: Limits,
    choices: &[usize],
) -> Result<(), NoMemory>
    requires well { IsWalk walk.old }
    requires first { IsIn walk.old.pool limits.first }
    requires last { IsIn walk.old.pool limits.last }
    requires target { IsDoTarget SeventySeven at.now.flow.now.setting.now.book.now.unit.now
        at.now.flow.now.graph.now.forks
        (flow.target at.now.flow.now.setting.now.book.now.unit.now.lines label) at.now.point
        at.now.target }
    ensures on { Follows walk.old walk.new }
    ensures did { OnOk result (PerformsIn walk.old.pool at.now.flow.now.setting.now
        (moment walk.old) (λ w. forms.entered w (flow.target w.unit.lines label) at.now.point
        (moment walk.old).now (tree_of walk.old.pool limits.first)
        (tree_of walk.old.pool limits.last) choices.now) (moment walk.new)) }
{
    let [choice, more @ ..] = choices else {
        return Ok(());
    };
    if *choice == 1 {
        return take_at_most(walk, limits.first, limits.last);
    }
    take_less(walk, limits.last, limits.first)?;
    pass_over(walk, at, label, more)
}
