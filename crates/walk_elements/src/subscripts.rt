// Subscripts, which are checked in order, and give the place of an element.
ghost use Rattle.std.specs.Prelude.{◌≡◌, length, map, IfOk, OnOk};
ghost use Rattle.formula.specs.Pool.{AllBelow, IsIn, tree_of};
ghost use Rattle.fort_syntax.specs.declared.condition.Kind.TheVariants.{SubscriptCheck};
ghost use Rattle.fort_model.specs.Events.{checks};
ghost use Rattle.fort_model.specs.Senses.{of_terms};
ghost use Rattle.fort_model.specs.WalkExpr as steps;
ghost use Rattle.fort_model.specs.WalkPlaces.{subscripts_fit};
ghost use Rattle.walk_state.specs.Moments.{Follows, IsWalk, moment};
ghost use Rattle.walk_values.specs.Parts.{Does};
ghost use Rattle.walk_state.specs.Moments.{with_event};
ghost use Rattle.walk_elements.specs.Events.{subscript_check, with_events};

use edge_io::NoMemory;
use formula::TermId;
use fort_syntax::{Dim, Kind};
use walk_places::{place, subscript_fits};
use walk_state::Walk;

/// A subscript must lie from 1 to its dimension.
fn check_subscript(walk: &mut Walk, card: u32, subscript: TermId, dim: Dim) -> Result<(), NoMemory>
    requires well { IsWalk walk.old }
    requires subscript { IsIn walk.old.pool subscript }
    ensures on { Follows walk.old walk.new }
    ensures met { OnOk result (moment walk.new ≡ with_event (moment walk.old)
        (subscript_check card (moment walk.old).now (tree_of walk.old.pool subscript) dim)) }
{
    let Ok(goal) = subscript_fits(walk.alloc, &mut walk.pool, &walk.names, subscript, dim) else {
        return Err(NoMemory);
    };
    walk.check(Kind::SubscriptCheck, card, goal)?;
    Ok(())
}

/// Each subscript must lie from 1 to its dimension.
fn check_subscripts(
    walk: &mut Walk,
    card: u32,
    subscripts: &[TermId],
    dims: &[Dim],
) -> Result<(), NoMemory>
    requires well { IsWalk walk.old }
    requires subscripts { AllBelow (length walk.old.pool) subscripts.now }
    ensures on { Follows walk.old walk.new }
    ensures met { OnOk result (moment walk.new ≡ with_events (moment walk.old)
        (checks SubscriptCheck card (subscripts_fit of_terms (moment walk.old).now
        (map (tree_of walk.old.pool) subscripts.now) dims.now))) }
{
    let [subscript, more @ ..] = subscripts else {
        return Ok(());
    };
    let [dim, rest @ ..] = dims else {
        return Ok(());
    };
    check_subscript(walk, card, *subscript, *dim)?;
    check_subscripts(walk, card, more, rest)?;
    Ok(())
}

/// The place of an element of an array with these dimensions, once its subscripts are checked.
pub fn place_checked(
    walk: &mut Walk,
    card: u32,
    dims: &[Dim],
    subscripts: &[TermId],
) -> Result<TermId, NoMemory>
    requires well { IsWalk walk.old }
    requires subscripts { AllBelow (length walk.old.pool) subscripts.now }
    ensures on { Follows walk.old walk.new }
    ensures is_in { IfOk result (λ id. IsIn walk.new.pool id) }
    ensures did { IfOk result (λ id. Does (moment walk.old) (λ w. steps.place_checked w card
        (moment walk.old).now dims.now (map (tree_of walk.old.pool) subscripts.now))
        (moment walk.new) (tree_of walk.new.pool id)) }
{
    check_subscripts(walk, card, subscripts, dims)?;
    let Ok(id) = place(walk.alloc, &mut walk.pool, &walk.names, subscripts, dims) else {
        return Err(NoMemory);
    };
    Ok(id)
}
