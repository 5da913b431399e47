// Heads and declarations, behind their first words.
ghost use Rattle.std.specs.Prelude.{◌≡◌, option_map};
ghost use Rattle.std.specs.List.{list_all};
ghost use Rattle.stmt_parse.specs.Parsing.{Gives};
ghost use Rattle.stmt_parse.specs.Statements.{is_nothing, slashed_at, first_block_at, slashed_group, group_behind, more_groups_at, groups_at, subroutine, function, declare, is_array, all_arrays, dimension_of, common, logical_head, typed_head, head, untyped_declaration, declaration};

use crate::Lack;
use crate::lists::{bracketed_names, items_at, optional_names, pushed_group};
use crate::tokens::{after, begins, name_at, past};
use edge_io::List;
use fort_syntax::{BlockName, Group, Item, Sort, Stmt};
use std::alloc::Global;

// Nothing is left.
pub(crate) fn ends(rest: &[u8]) -> bool
    ensures { result ≡ is_nothing rest.now }
{
    match rest {
        [] => true,
        _ => false,
    }
}

#[tactic(auto, unfolding(crate::specs::Statements::subroutine))]
fn subroutine(alloc: Global, rounds: usize, text: &[u8]) -> Result<Stmt, Lack>
    ensures { Gives (λ s. s) result (subroutine rounds text.now) }
{
    let Some((name, rest)) = name_at(text) else {
        return Err(Lack::Spelling);
    };
    let (dummies, rest) = optional_names(alloc, rounds, rest)?;
    if !ends(rest) {
        return Err(Lack::Spelling);
    }
    Ok(Stmt::Subroutine(name, dummies))
}

#[tactic(auto, unfolding(crate::specs::Statements::function))]
fn function(alloc: Global, rounds: usize, sort: Option<Sort>, text: &[u8]) -> Result<Stmt, Lack>
    ensures { Gives (λ s. s) result (function rounds sort text.now) }
{
    let Some((name, rest)) = name_at(text) else {
        return Err(Lack::Spelling);
    };
    let Some(rest) = after(rest, b"(") else {
        return Err(Lack::Spelling);
    };
    let (dummies, rest) = bracketed_names(alloc, rounds, rest)?;
    if !ends(rest) {
        return Err(Lack::Spelling);
    }
    Ok(Stmt::Function(sort, name, dummies))
}

// The head of a unit.
#[tactic(auto, unfolding(crate::specs::Statements::logical_head))]
fn logical_head(alloc: Global, rounds: usize, text: &[u8]) -> Result<Stmt, Lack>
    ensures { Gives (λ s. s) result (logical_head rounds text.now) }
{
    if begins(text, b"LOGICALFUNCTION") {
        return function(alloc, rounds, Some(Sort::Logical), &text[15..]);
    }
    Err(Lack::Spelling)
}

#[tactic(auto, unfolding(crate::specs::Statements::typed_head))]
fn typed_head(alloc: Global, rounds: usize, text: &[u8]) -> Result<Stmt, Lack>
    ensures { Gives (λ s. s) result (typed_head rounds text.now) }
{
    if begins(text, b"INTEGERFUNCTION") {
        return function(alloc, rounds, Some(Sort::Integer), &text[15..]);
    }
    logical_head(alloc, rounds, text)
}

#[tactic(auto, unfolding(crate::specs::Statements::head))]
pub(crate) fn head(alloc: Global, rounds: usize, text: &[u8]) -> Result<Stmt, Lack>
    ensures { Gives (λ s. s) result (head rounds text.now) }
{
    if begins(text, b"SUBROUTINE") {
        return subroutine(alloc, rounds, &text[10..]);
    }
    if begins(text, b"FUNCTION") {
        return function(alloc, rounds, None, &text[8..]);
    }
    typed_head(alloc, rounds, text)
}

#[tactic(auto, unfolding(crate::specs::Statements::declare))]
fn declare(alloc: Global, rounds: usize, sort: Sort, text: &[u8]) -> Result<Stmt, Lack>
    ensures { Gives (λ s. s) result (declare rounds sort text.now) }
{
    let (items, rest) = items_at(alloc, rounds, text)?;
    if !ends(rest) {
        return Err(Lack::Spelling);
    }
    Ok(Stmt::Declare(sort, items))
}

fn is_array(item: &Item) -> bool
    ensures { result ≡ is_array item.now }
{
    !item.dims.as_slice().is_empty()
}

#[tactic(auto, unfolding(crate::specs::Statements::all_arrays))]
fn all_arrays(items: &[Item]) -> bool
    ensures { result ≡ all_arrays items.now }
{
    items.iter().all(|item| is_array(item))
}

#[tactic(auto, unfolding(crate::specs::Statements::dimension_of))]
fn dimension(alloc: Global, rounds: usize, text: &[u8]) -> Result<Stmt, Lack>
    ensures { Gives (λ s. s) result (dimension_of rounds text.now) }
{
    let (items, rest) = items_at(alloc, rounds, text)?;
    if !ends(rest) || !all_arrays(items.as_slice()) {
        return Err(Lack::Spelling);
    }
    Ok(Stmt::Dimension(items))
}

// A block in slashes, the first of which was read.
#[tactic(auto, unfolding(crate::specs::Statements::slashed_at))]
fn slashed_at(text: &[u8]) -> Option<(BlockName, &[u8])>
    ensures { option_map (λ r. (r.0, r.1.now)) result ≡ slashed_at text.now }
{
    if begins(text, b"/") {
        return Some((BlockName::Slashes, &text[1..]));
    }
    let Some((name, rest)) = name_at(text) else {
        return None;
    };
    let Some(rest) = after(rest, b"/") else {
        return None;
    };
    Some((BlockName::Named(name), rest))
}

#[tactic(auto, unfolding(crate::specs::Statements::first_block_at))]
fn first_block_at(text: &[u8]) -> Option<(BlockName, &[u8])>
    ensures { option_map (λ r. (r.0, r.1.now)) result ≡ first_block_at text.now }
{
    if begins(text, b"/") {
        return slashed_at(&text[1..]);
    }
    Some((BlockName::Bare, text))
}

// The items behind a block.
#[tactic(auto, unfolding(crate::specs::Statements::group_behind))]
fn group_behind(
    alloc: Global,
    rounds: usize,
    block: BlockName,
    text: &[u8],
) -> Result<(Group, &[u8]), Lack>
    ensures { Gives (λ r. (r.0, r.1.now)) result (group_behind rounds block text.now) }
{
    let (items, rest) = items_at(alloc, rounds, text)?;
    Ok((Group { block, items }, rest))
}

// A block in slashes, the first of which was read, and its items.
#[tactic(auto, unfolding(crate::specs::Statements::slashed_group))]
fn slashed_group(alloc: Global, rounds: usize, text: &[u8]) -> Result<(Group, &[u8]), Lack>
    ensures { Gives (λ r. (r.0, r.1.now)) result (slashed_group rounds text.now) }
{
    let Some((block, rest)) = slashed_at(text) else {
        return Err(Lack::Spelling);
    };
    group_behind(alloc, rounds, block, rest)
}

#[tactic(auto, using(crate::proofs::Rounds::more_groups_next, crate::proofs::Rounds::more_groups_none))]
fn more_groups(
    alloc: Global,
    rounds: usize,
    first: Vec<Group>,
    text: &[u8],
) -> Result<(List<Group>, &[u8]), Lack>
    ensures { Gives (λ r. (r.0, r.1.now)) result (more_groups_at rounds rounds first.items text.now) }
{
    let mut all = first;
    let mut rest = text;
    let mut left = rounds;
    while left > 0 {
        left -= 1;
        if !begins(rest, b"/") {
            return Ok((List::from_vec(all), rest));
        }
        let (next, behind) = slashed_group(alloc, rounds, past(rest, 1))?;
        pushed_group(&mut all, next)?;
        rest = behind;
    }
    Err(Lack::Spelling)
}

#[tactic(auto, unfolding(crate::specs::Statements::groups_at))]
fn groups_at(alloc: Global, rounds: usize, text: &[u8]) -> Result<(List<Group>, &[u8]), Lack>
    ensures { Gives (λ r. (r.0, r.1.now)) result (groups_at rounds text.now) }
{
    let Some((block, rest)) = first_block_at(text) else {
        return Err(Lack::Spelling);
    };
    let (first, rest) = group_behind(alloc, rounds, block, rest)?;
    let mut all = Vec::new(alloc);
    pushed_group(&mut all, first)?;
    more_groups(alloc, rounds, all, rest)
}

#[tactic(auto, unfolding(crate::specs::Statements::common))]
fn common(alloc: Global, rounds: usize, text: &[u8]) -> Result<Stmt, Lack>
    ensures { Gives (λ s. s) result (common rounds text.now) }
{
    let (groups, rest) = groups_at(alloc, rounds, text)?;
    if !ends(rest) {
        return Err(Lack::Spelling);
    }
    Ok(Stmt::Common(groups))
}

// A declaration.
#[tactic(auto, unfolding(crate::specs::Statements::untyped_declaration))]
fn untyped_declaration(alloc: Global, rounds: usize, text: &[u8]) -> Result<Stmt, Lack>
    ensures { Gives (λ s. s) result (untyped_declaration rounds text.now) }
{
    if begins(text, b"DIMENSION") {
        return dimension(alloc, rounds, &text[9..]);
    }
    if begins(text, b"COMMON") {
        return common(alloc, rounds, &text[6..]);
    }
    Err(Lack::Spelling)
}

#[tactic(auto, unfolding(crate::specs::Statements::declaration))]
pub(crate) fn declaration(alloc: Global, rounds: usize, text: &[u8]) -> Result<Stmt, Lack>
    ensures { Gives (λ s. s) result (declaration rounds text.now) }
{
    if begins(text, b"INTEGER") {
        return declare(alloc, rounds, Sort::Integer, &text[7..]);
    }
    if begins(text, b"LOGICAL") {
        return declare(alloc, rounds, Sort::Logical, &text[7..]);
    }
    untyped_declaration(alloc, rounds, text)
}
