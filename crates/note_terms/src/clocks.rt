// Clocks: parts that are not negative, and parts that fall.
ghost use Rattle.std.specs.Prelude.{◌≡◌, ℕ, length, map, IfOk};
ghost use Rattle.formula.specs.Pool.{AllBelow, Grows, IsIn, tree_of};
ghost use Rattle.note_terms.specs.Stated.{Makes, at_least_0, below, falls_in, trees_in};

use edge_io::NoMemory;
use formula::{BuiltIn, TermId, TermPool};
use std::alloc::Global;
use walk_terms::not_negative;

/// Each of some numbers is 0 or more.
pub fn at_least_zero(
    alloc: Global,
    pool: &mut TermPool,
    numbers: &[TermId],
) -> Result<Vec<TermId>, NoMemory>
    requires { AllBelow (length pool.old) numbers.now }
    ensures { IfOk result (λ terms. Makes pool.old pool.new terms.items
        (map at_least_0 (trees_in pool.old numbers.now))) }
{
    let mut terms = Vec::new(alloc);
    for number in numbers {
        let term = not_negative(pool, *number)?;
        terms.push(term)?;
    }
    Ok(terms)
}

/// The first of two numbers is less, or it is at most the other and some term holds.
fn first_below(
    pool: &mut TermPool,
    new: TermId,
    old: TermId,
    later: TermId,
) -> Result<TermId, NoMemory>
    requires new { IsIn pool.old new }
    requires old { IsIn pool.old old }
    requires later { IsIn pool.old later }
    ensures grows { Grows pool.old pool.new }
    ensures is_in { IfOk result (λ id. IsIn pool.new id) }
    ensures tree { IfOk result (λ id. tree_of pool.new id ≡ below (tree_of pool.old new)
        (tree_of pool.old old) (tree_of pool.old later)) }
{
    let less = pool.binary(BuiltIn::Less, new, old)?;
    let most = pool.binary(BuiltIn::AtMost, new, old)?;
    let both = pool.binary(BuiltIn::And, most, later)?;
    let either = pool.binary(BuiltIn::Or, less, both)?;
    Ok(either)
}

/// The new parts of a clock are lexicographically below the old ones; false where there are not as
/// many of them, or none.
pub fn fallen(pool: &mut TermPool, new: &[TermId], old: &[TermId]) -> Result<TermId, NoMemory>
    requires new { AllBelow (length pool.old) new.now }
    requires old { AllBelow (length pool.old) old.now }
    ensures grows { Grows pool.old pool.new }
    ensures is_in { IfOk result (λ id. IsIn pool.new id) }
    ensures tree { IfOk result (λ id. tree_of pool.new id ≡ falls_in (trees_in pool.old new.now)
        (trees_in pool.old old.now)) }
{
    let [first, more @ ..] = new else {
        return pool.truth(false);
    };
    let [was, rest @ ..] = old else {
        return pool.truth(false);
    };
    if more.is_empty() && rest.is_empty() {
        return pool.binary(BuiltIn::Less, *first, *was);
    }
    if more.is_empty() || rest.is_empty() {
        return pool.truth(false);
    }
    let later = fallen(pool, more, rest)?;
    let all = first_below(pool, *first, *was, later)?;
    Ok(all)
}
