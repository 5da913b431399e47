// Powers.
ghost use Rattle.std.specs.Prelude.{◌≡◌, IfOk};
ghost use Rattle.formula.specs.Pool.{IsIn, tree_of};
ghost use Rattle.fort_model.specs.WalkExpr as steps;
ghost use Rattle.walk_state.specs.Moments.{Follows, IsWalk, moment};
ghost use Rattle.walk_values.specs.Parts.{Does};

use crate::operations::in_range_of;
use edge_io::NoMemory;
use formula::TermId;
use fort_syntax::BinOp;
use walk_state::Walk;

/// A product, times a base so many times more.
fn power_from(
    walk: &mut Walk,
    card: u32,
    base: TermId,
    more: u8,
    product: TermId,
) -> Result<TermId, NoMemory>
    requires well { IsWalk walk.old }
    requires base { IsIn walk.old.pool base }
    requires product { IsIn walk.old.pool product }
    ensures on { Follows walk.old walk.new }
    ensures is_in { IfOk result (λ id. IsIn walk.new.pool id) }
    ensures did { IfOk result (λ id. Does (moment walk.old) (λ w. steps.power_from w card
        (tree_of walk.old.pool base) more (tree_of walk.old.pool product)) (moment walk.new)
        (tree_of walk.new.pool id)) }
{
    if more == 0 {
        return Ok(product);
    }
    let next = in_range_of(walk, card, BinOp::Mul, product, base)?;
    let whole = power_from(walk, card, base, more - 1, next)?;
    Ok(whole)
}

/// A power: a product of the base with itself, from the left; each product must be in range.
pub fn power(walk: &mut Walk, card: u32, base: TermId, exponent: u8) -> Result<TermId, NoMemory>
    requires well { IsWalk walk.old }
    requires base { IsIn walk.old.pool base }
    ensures on { Follows walk.old walk.new }
    ensures is_in { IfOk result (λ id. IsIn walk.new.pool id) }
    ensures did { IfOk result (λ id. Does (moment walk.old) (λ w. steps.power w card
        (tree_of walk.old.pool base) exponent) (moment walk.new) (tree_of walk.new.pool id)) }
{
    power_from(walk, card, base, exponent.saturating_sub(1), base)
}
