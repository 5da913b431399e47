// Elements of arrays.
ghost use Rattle.std.specs.Prelude.{◌≡◌, length, map, IfOk};
ghost use Rattle.formula.specs.Pool.{AllBelow, tree_of};
ghost use Rattle.walk_operands.specs.Operands.{IsOperandIn, operand_tree};
ghost use Rattle.walk_state.specs.Moments.{Follows, IsWalk, moment};
ghost use Rattle.walk_values.specs.Parts.{Does};
ghost use Rattle.walk_operators.specs.Operators.{element_of};

use edge_io::NoMemory;
use formula::TermId;
use fort_syntax::{Dim, Name};
use walk_elements::place_checked;
use walk_operands::Operand;
use walk_state::Walk;
use walk_terms::element;

/// An element of an array with these dimensions, whose subscripts are checked. It is not read.
pub fn element_at(
    walk: &mut Walk,
    card: u32,
    array: &Name,
    dims: &[Dim],
    subscripts: &[TermId],
) -> Result<Operand, NoMemory>
    requires well { IsWalk walk.old }
    requires subscripts { AllBelow (length walk.old.pool) subscripts.now }
    ensures on { Follows walk.old walk.new }
    ensures is_in { IfOk result (λ x. IsOperandIn (length walk.new.pool) x) }
    ensures did { IfOk result (λ x. Does (moment walk.old) (λ w. element_of w card
        (moment walk.old).now array.now dims.now (map (tree_of walk.old.pool) subscripts.now))
        (moment walk.new) (operand_tree walk.new.pool x)) }
{
    let place = place_checked(walk, card, dims, subscripts)?;
    let whole = walk.term(array)?;
    let Ok(value) = element(&mut walk.pool, whole, place) else {
        return Err(NoMemory);
    };
    Ok(Operand::Part(value))
}
