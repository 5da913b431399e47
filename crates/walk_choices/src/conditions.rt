// Conditions.
ghost use Rattle.std.specs.Prelude.{OnOk};
ghost use Rattle.fort_model.specs.Program.{Program};
ghost use Rattle.path_scene.specs.Scenes.{IsReady};
ghost use Rattle.walk_setting.specs.Settings.{DoesIn, PerformsIn};
ghost use Rattle.walk_state.specs.Moments.{Follows, IsWalk, moment};
ghost use Rattle.walk_choices.specs.Choices as choices_of;

use crate::first::first_choice;
use edge_io::NoMemory;
use fort_syntax::Expr;
use walk_expr::value;
use walk_facts::{take_not, take_true};
use walk_setting::Card;
use walk_state::Walk;

/// A condition is evaluated, and is true.
pub fn is_true(walk: &mut Walk, card: &Card, e: &Expr) -> Result<(), NoMemory>
    requires well { IsWalk walk.old }
    requires ready { (p : Program) × IsReady walk.old.pool card.now.setting.now.scene.now p }
    ensures on { Follows walk.old walk.new }
    ensures did { OnOk result (DoesIn walk.old.pool card.now.setting.now (moment walk.old)
        (λ w. choices_of.is_true w card.now.number (moment walk.old).now e.now)
        (moment walk.new) tt) }
{
    let truth = value(walk, card, e)?;
    take_true(walk, truth)
}

/// A condition is evaluated, and is false.
pub fn is_false(walk: &mut Walk, card: &Card, e: &Expr) -> Result<(), NoMemory>
    requires well { IsWalk walk.old }
    requires ready { (p : Program) × IsReady walk.old.pool card.now.setting.now.scene.now p }
    ensures on { Follows walk.old walk.new }
    ensures did { OnOk result (DoesIn walk.old.pool card.now.setting.now (moment walk.old)
        (λ w. choices_of.is_false w card.now.number (moment walk.old).now e.now)
        (moment walk.new) tt) }
{
    let truth = value(walk, card, e)?;
    take_not(walk, truth)
}

/// A condition that decides where the flow goes on: by the choice 1 it is true, by another one it is
/// false.
pub fn condition(walk: &mut Walk, card: &Card, e: &Expr, choices: &[usize]) -> Result<(), NoMemory>
    requires well { IsWalk walk.old }
    requires ready { (p : Program) × IsReady walk.old.pool card.now.setting.now.scene.now p }
    ensures on { Follows walk.old walk.new }
    ensures did { OnOk result (PerformsIn walk.old.pool card.now.setting.now (moment walk.old)
        (λ w. choices_of.decided w card.now.number (moment walk.old).now e.now choices.now)
        (moment walk.new)) }
{
    let choice = first_choice(choices);
    if choice == 1 {
        return is_true(walk, card, e);
    }
    is_false(walk, card, e)
}
