// The sign of a value.
ghost use Rattle.std.specs.Prelude.{OnOk};
ghost use Rattle.formula.specs.Pool.{IsIn, tree_of};
ghost use Rattle.formula.specs.declared.function.BuiltIn.TheVariants.{Less};
ghost use Rattle.fort_model.specs.Program.{Program};
ghost use Rattle.fort_model.specs.Senses.{make2, natural as natural_tree, of_terms};
ghost use Rattle.fort_model.specs.WalkStmt as forms;
ghost use Rattle.path_scene.specs.Scenes.{IsReady};
ghost use Rattle.walk_setting.specs.Settings.{PerformsIn};
ghost use Rattle.walk_state.specs.Moments.{Follows, IsWalk, moment};
ghost use Rattle.walk_values.specs.Parts.{Does};
ghost use Rattle.walk_choices.specs.Choices as choices_of;

use crate::first::first_choice;
use edge_io::NoMemory;
use formula::TermId;
use fort_syntax::Expr;
use walk_expr::value;
use walk_facts::{take_equals, take_less};
use walk_setting::Card;
use walk_state::Walk;
use walk_terms::natural;

// A number is below 0.
fn below_zero(walk: &mut Walk, number: TermId) -> Result<(), NoMemory>
    requires well { IsWalk walk.old }
    requires number { IsIn walk.old.pool number }
    ensures on { Follows walk.old walk.new }
    ensures did { OnOk result (Does (moment walk.old) (λ w. forms.taken w
        (make2 of_terms Less (tree_of walk.old.pool number) (natural_tree of_terms 0)))
        (moment walk.new) tt) }
{
    let Ok(zero) = natural(&mut walk.pool, 0) else {
        return Err(NoMemory);
    };
    take_less(walk, number, zero)
}

// A number is above 0.
fn above_zero(walk: &mut Walk, number: TermId) -> Result<(), NoMemory>
    requires well { IsWalk walk.old }
    requires number { IsIn walk.old.pool number }
    ensures on { Follows walk.old walk.new }
    ensures did { OnOk result (Does (moment walk.old) (λ w. forms.taken w
        (make2 of_terms Less (natural_tree of_terms 0) (tree_of walk.old.pool number)))
        (moment walk.new) tt) }
{
    let Ok(zero) = natural(&mut walk.pool, 0) else {
        return Err(NoMemory);
    };
    take_less(walk, zero, number)
}

// A number has the sign of a choice.
fn take_sign(walk: &mut Walk, number: TermId, choices: &[usize]) -> Result<(), NoMemory>
    requires well { IsWalk walk.old }
    requires number { IsIn walk.old.pool number }
    ensures on { Follows walk.old walk.new }
    ensures did { OnOk result (Does (moment walk.old) (λ w. forms.taken w
        (forms.sign_fact w (tree_of walk.old.pool number) choices.now)) (moment walk.new) tt) }
{
    let choice = first_choice(choices);
    if choice == 1 {
        return below_zero(walk, number);
    }
    if choice == 2 {
        return take_equals(walk, number, 0);
    }
    above_zero(walk, number)
}

/// The value of an arithmetic IF: by the choice 1 it is negative, by 2 zero, by another one positive.
pub fn sign(walk: &mut Walk, card: &Card, e: &Expr, choices: &[usize]) -> Result<(), NoMemory>
    requires well { IsWalk walk.old }
    requires ready { (p : Program) × IsReady walk.old.pool card.now.setting.now.scene.now p }
    ensures on { Follows walk.old walk.new }
    ensures did { OnOk result (PerformsIn walk.old.pool card.now.setting.now (moment walk.old)
        (λ w. choices_of.signed w card.now.number (moment walk.old).now e.now choices.now)
        (moment walk.new)) }
{
    let number = value(walk, card, e)?;
    take_sign(walk, number, choices)
}
