// The left sides of assignments.
ghost use Rattle.std.specs.Prelude.{length, map, OnOk};
ghost use Rattle.formula.specs.Pool.{AllBelow, IsIn, tree_of};
ghost use Rattle.fort_model.specs.Program.{Program};
ghost use Rattle.fort_model.specs.WalkStmt as forms;
ghost use Rattle.path_scene.specs.Scenes.{IsReady};
ghost use Rattle.walk_assign.specs.Parts.{element_assigned, stored};
ghost use Rattle.walk_setting.specs.Settings.{PerformsIn};
ghost use Rattle.walk_state.specs.Moments.{Follows, IsWalk, moment};

use edge_io::NoMemory;
use formula::TermId;
use fort_syntax::{Expr, Name};
use walk_elements::place_checked;
use walk_expr::values;
use walk_setting::Card;
use walk_state::Walk;
use walk_terms::put;

// An array stands for what it stood for, with a value at the place of checked subscripts.
fn store(
    walk: &mut Walk,
    card: &Card,
    array: &Name,
    subscripts: &[TermId],
    value: TermId,
) -> Result<(), NoMemory>
    requires well { IsWalk walk.old }
    requires subscripts { AllBelow (length walk.old.pool) subscripts.now }
    requires value { IsIn walk.old.pool value }
    ensures on { Follows walk.old walk.new }
    ensures did { OnOk result (PerformsIn walk.old.pool card.now.setting.now (moment walk.old)
        (λ w. stored w card.now.number (moment walk.old).now array.now
        (map (tree_of walk.old.pool) subscripts.now) (tree_of walk.old.pool value))
        (moment walk.new)) }
{
    let dims = card.setting.book.dims(array);
    let place = place_checked(walk, card.number, dims, subscripts)?;
    let whole = walk.term(array)?;
    let Ok(after) = put(&mut walk.pool, whole, place, value) else {
        return Err(NoMemory);
    };
    walk.set(array, after)
}

// An element of an array is set.
fn assign_element(
    walk: &mut Walk,
    card: &Card,
    array: &Name,
    args: &[Expr],
    value: TermId,
) -> Result<(), NoMemory>
    requires well { IsWalk walk.old }
    requires ready { (p : Program) × IsReady walk.old.pool card.now.setting.now.scene.now p }
    requires value { IsIn walk.old.pool value }
    ensures on { Follows walk.old walk.new }
    ensures did { OnOk result (PerformsIn walk.old.pool card.now.setting.now (moment walk.old)
        (λ w. element_assigned w card.now.number (moment walk.old).now array.now args.now
        (tree_of walk.old.pool value)) (moment walk.new)) }
{
    let subscripts = values(walk, card, args)?;
    store(walk, card, array, subscripts.as_slice(), value)
}

/// The left side of an assignment stands for a value from now on: a name, or an element, whose
/// subscripts are evaluated and checked now.
pub fn assign(walk: &mut Walk, card: &Card, left: &Expr, value: TermId) -> Result<(), NoMemory>
    requires well { IsWalk walk.old }
    requires ready { (p : Program) × IsReady walk.old.pool card.now.setting.now.scene.now p }
    requires value { IsIn walk.old.pool value }
    ensures on { Follows walk.old walk.new }
    ensures did { OnOk result (PerformsIn walk.old.pool card.now.setting.now (moment walk.old)
        (λ w. forms.assign w card.now.number (moment walk.old).now left.now
        (tree_of walk.old.pool value)) (moment walk.new)) }
{
    match left {
        Expr::Var(x) => walk.set(x, value),
        Expr::Apply(a, args) => assign_element(walk, card, a, args.as_slice(), value),
        _ => Ok(()),
    }
}
