// How a DO begins.
ghost use Rattle.std.specs.Prelude.{OnOk};
ghost use Rattle.formula.specs.Pool.{IsIn, tree_of};
ghost use Rattle.fort_syntax.specs.declared.dialect.Dialect.TheVariants.{Common, SeventySeven};
ghost use Rattle.fort_model.specs.Flow as flow;
ghost use Rattle.fort_model.specs.Graphs.{IsDoTarget};
ghost use Rattle.walk_setting.specs.Settings.{PerformsIn};
ghost use Rattle.walk_state.specs.Moments.{Follows, IsWalk, moment};
ghost use Rattle.walk_begins.specs.Begins.{begins, begins_with, begun};

use crate::entering::enter;
use crate::limits::{Limits, check_trips, limits_of};
use edge_io::NoMemory;
use fort_syntax::{Dialect, Name, Param};
use walk_flow::Standing;
use walk_loops::check_loop;
use walk_state::Walk;

/// A DO: the label of its last statement, its variable, its first and its last value, and its step.
#[derive(Clone, Copy, Debug)]
pub struct DoHead {
    pub label: u32,
    pub variable: Name,
    pub first: Param,
    pub last: Param,
    pub step: Option<Param>,
}

// Without 77 the values must fit, and a DO is entered.
fn begin_common(
    walk: &mut Walk,
    at: &Standing,
    head: &DoHead,
    limits: Limits,
    choices: &[usize],
) -> Result<(), NoMemory>
    requires well { IsWalk walk.old }
    requires first { IsIn walk.old.pool limits.first }
    requires last { IsIn walk.old.pool limits.last }
    requires step { IsIn walk.old.pool limits.step }
    ensures on { Follows walk.old walk.new }
    ensures did { OnOk result (PerformsIn walk.old.pool at.now.flow.now.setting.now
        (moment walk.old) (λ w. begun w Common at.now.card at.now.point (moment walk.old).now
        head.now (
          tree_of walk.old.pool limits.first,
          tree_of walk.old.pool limits.last,
          tree_of walk.old.pool limits.step,
        ) choices.now) (moment walk.new)) }
{
    check_loop(walk, at.card, limits.first, limits.last, limits.step)?;
    walk.set(&head.variable, limits.first)
}

// Under 77 a DO may be passed over.
fn begin_seventy_seven(
    walk: &mut Walk,
    at: &Standing,
    head: &DoHead,
    limits: Limits,
    choices: &[usize],
) -> Result<(), NoMemory>
    requires well { IsWalk walk.old }
    requires first { IsIn walk.old.pool limits.first }
    requires last { IsIn walk.old.pool limits.last }
    requires step { IsIn walk.old.pool limits.step }
    requires target { IsDoTarget SeventySeven at.now.flow.now.setting.now.book.now.unit.now
        at.now.flow.now.graph.now.forks
        (flow.target at.now.flow.now.setting.now.book.now.unit.now.lines head.now.label)
        at.now.point at.now.target }
    ensures on { Follows walk.old walk.new }
    ensures did { OnOk result (PerformsIn walk.old.pool at.now.flow.now.setting.now
        (moment walk.old) (λ w. begun w SeventySeven at.now.card at.now.point
        (moment walk.old).now head.now (
          tree_of walk.old.pool limits.first,
          tree_of walk.old.pool
              limits.last,
          tree_of walk.old.pool limits.step,
        ) choices.now) (moment walk.new)) }
{
    check_trips(walk, at.card, limits)?;
    walk.set(&head.variable, limits.first)?;
    enter(walk, at, head.label, limits, choices)
}

// A DO begins with its limits.
fn begin_with(
    walk: &mut Walk,
    at: &Standing,
    head: &DoHead,
    limits: Limits,
    choices: &[usize],
) -> Result<(), NoMemory>
    requires well { IsWalk walk.old }
    requires first { IsIn walk.old.pool limits.first }
    requires last { IsIn walk.old.pool limits.last }
    requires step { IsIn walk.old.pool limits.step }
    requires target { IsDoTarget at.now.flow.now.setting.now.scene.now.dialect
        at.now.flow.now.setting.now.book.now.unit.now at.now.flow.now.graph.now.forks
        (flow.target at.now.flow.now.setting.now.book.now.unit.now.lines head.now.label)
        at.now.point at.now.target }
    ensures on { Follows walk.old walk.new }
    ensures did { OnOk result (PerformsIn walk.old.pool at.now.flow.now.setting.now
        (moment walk.old) (λ w. begins_with w at.now.card at.now.point (moment walk.old).now
        head.now (
          tree_of walk.old.pool limits.first,
          tree_of walk.old.pool limits.last,
          tree_of walk.old.pool limits.step,
        ) choices.now) (moment walk.new)) }
{
    match at.flow.setting.scene.dialect {
        Dialect::Common => begin_common(walk, at, head, limits, choices),
        Dialect::SeventySeven => begin_seventy_seven(walk, at, head, limits, choices),
    }
}

/// A DO begins: its first value, its last value and its step are read and checked, and its variable
/// has the first value. Under 77 it is entered by the choice 1, and passed over by another one.
pub fn begin_do(
    walk: &mut Walk,
    at: &Standing,
    head: &DoHead,
    choices: &[usize],
) -> Result<(), NoMemory>
    requires well { IsWalk walk.old }
    requires target { IsDoTarget at.now.flow.now.setting.now.scene.now.dialect
        at.now.flow.now.setting.now.book.now.unit.now at.now.flow.now.graph.now.forks
        (flow.target at.now.flow.now.setting.now.book.now.unit.now.lines head.now.label)
        at.now.point at.now.target }
    ensures on { Follows walk.old walk.new }
    ensures did { OnOk result (PerformsIn walk.old.pool at.now.flow.now.setting.now
        (moment walk.old) (λ w. begins w at.now.card at.now.point (moment walk.old).now
        head.now choices.now) (moment walk.new)) }
{
    let limits = limits_of(walk, &at.at_card(), head.first, head.last, head.step)?;
    begin_with(walk, at, head, limits, choices)
}
