// The first value, the last value and the step of a DO.
ghost use Rattle.std.specs.Prelude.{IfOk, OnOk};
ghost use Rattle.formula.specs.Pool.{IsIn, tree_of};
ghost use Rattle.walk_setting.specs.Settings.{DoesIn};
ghost use Rattle.walk_state.specs.Moments.{Follows, IsWalk, moment};
ghost use Rattle.walk_values.specs.Parts.{Does};
ghost use Rattle.walk_begins.specs.Begins as begins;

use edge_io::NoMemory;
use formula::TermId;
use fort_syntax::{BinOp, Param};
use walk_facts::{parameter, step_value};
use walk_loops::check_step;
use walk_setting::Card;
use walk_state::Walk;
use walk_values::operate;

/// The first value, the last value and the step of a DO.
#[derive(Clone, Copy)]
pub(crate) struct Limits {
    pub(crate) first: TermId,
    pub(crate) last: TermId,
    pub(crate) step: TermId,
}

/// The first value, the last value and the step of a DO, which are read.
pub(crate) fn limits_of(
    walk: &mut Walk,
    card: &Card,
    first: Param,
    last: Param,
    step: Option<Param>,
) -> Result<Limits, NoMemory>
    requires { IsWalk walk.old }
    ensures on { Follows walk.old walk.new }
    ensures first { IfOk result (λ m. IsIn walk.new.pool m.first) }
    ensures last { IfOk result (λ m. IsIn walk.new.pool m.last) }
    ensures step { IfOk result (λ m. IsIn walk.new.pool m.step) }
    ensures did { IfOk result (λ m. DoesIn walk.old.pool card.now.setting.now (moment walk.old)
        (λ w. begins.limits_of w card.now.number (moment walk.old).now first last step)
        (moment walk.new) (
          tree_of walk.new.pool m.first,
          tree_of walk.new.pool m.last,
          tree_of walk.new.pool m.step,
        )) }
{
    let bound = card.setting.scene.bound;
    let first = parameter(walk, bound, card.number, first)?;
    let last = parameter(walk, bound, card.number, last)?;
    let step = step_value(walk, bound, card.number, step)?;
    Ok(Limits { first, last, step })
}

/// Under 77 the step must be 1 or more, and the numbers must be in range that tell how often a DO is
/// performed.
pub(crate) fn check_trips(walk: &mut Walk, card: u32, limits: Limits) -> Result<(), NoMemory>
    requires well { IsWalk walk.old }
    requires first { IsIn walk.old.pool limits.first }
    requires last { IsIn walk.old.pool limits.last }
    requires step { IsIn walk.old.pool limits.step }
    ensures on { Follows walk.old walk.new }
    ensures did { OnOk result (Does (moment walk.old) (λ w. begins.trips_checked w card
        (tree_of walk.old.pool limits.first) (tree_of walk.old.pool limits.last)
        (tree_of walk.old.pool limits.step)) (moment walk.new) tt) }
{
    check_step(walk, card, limits.step)?;
    let distance = operate(walk, card, BinOp::Sub, limits.last, limits.first)?;
    operate(walk, card, BinOp::Add, distance, limits.step)?;
    Ok(())
}
