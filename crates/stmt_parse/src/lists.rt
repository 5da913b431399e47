// Lists with commas between their parts.
ghost use Rattle.std.specs.Prelude.{◌≡◌, [], ◌∷◌, ◌++◌, OnOk, IfErr, option_map};
ghost use Rattle.stmt_parse.specs.Tokens.{name_at, label_at};
ghost use Rattle.stmt_parse.specs.Parsing.{Gives};
ghost use Rattle.stmt_parse.specs.Statements.{more_of, list_of, rest_of_brackets, brackets_at, dim_at, item_at};

use crate::Lack;
use crate::tokens::{after, begins, constant_at, label_at, name_at, past, starts_with_digit};
use edge_io::List;
use fort_syntax::{Dim, Group, Item, Name};
use std::alloc::Global;

// One more at the end.
pub(crate) fn pushed_name(all: &mut Vec<Name>, x: Name) -> Result<(), Lack>
    ensures ok { OnOk result (all.new.items ≡ all.old.items ++ x ∷ []) }
    ensures err { IfErr result (λ l. l ≡ Lack.Memory) }
{
    match all.push(x) {
        Ok(()) => Ok(()),
        Err(_) => Err(Lack::Memory),
    }
}

// One more at the end.
pub(crate) fn pushed_label(all: &mut Vec<u32>, x: u32) -> Result<(), Lack>
    ensures ok { OnOk result (all.new.items ≡ all.old.items ++ x ∷ []) }
    ensures err { IfErr result (λ l. l ≡ Lack.Memory) }
{
    match all.push(x) {
        Ok(()) => Ok(()),
        Err(_) => Err(Lack::Memory),
    }
}

// One more at the end.
pub(crate) fn pushed_dim(all: &mut Vec<Dim>, x: Dim) -> Result<(), Lack>
    ensures ok { OnOk result (all.new.items ≡ all.old.items ++ x ∷ []) }
    ensures err { IfErr result (λ l. l ≡ Lack.Memory) }
{
    match all.push(x) {
        Ok(()) => Ok(()),
        Err(_) => Err(Lack::Memory),
    }
}

// One more at the end.
pub(crate) fn pushed_item(all: &mut Vec<Item>, x: Item) -> Result<(), Lack>
    ensures ok { OnOk result (all.new.items ≡ all.old.items ++ x ∷ []) }
    ensures err { IfErr result (λ l. l ≡ Lack.Memory) }
{
    match all.push(x) {
        Ok(()) => Ok(()),
        Err(_) => Err(Lack::Memory),
    }
}

// One more at the end.
pub(crate) fn pushed_group(all: &mut Vec<Group>, x: Group) -> Result<(), Lack>
    ensures ok { OnOk result (all.new.items ≡ all.old.items ++ x ∷ []) }
    ensures err { IfErr result (λ l. l ≡ Lack.Memory) }
{
    match all.push(x) {
        Ok(()) => Ok(()),
        Err(_) => Err(Lack::Memory),
    }
}

// A dimension.
#[tactic(auto, unfolding(crate::specs::Statements::dim_at))]
fn dim_at(text: &[u8]) -> Option<(Dim, &[u8])>
    ensures { option_map (λ r. (r.0, r.1.now)) result ≡ dim_at text.now }
{
    if starts_with_digit(text) {
        let Some((n, rest)) = constant_at(text) else {
            return None;
        };
        return Some((Dim::Fixed(n), rest));
    }
    let Some((name, rest)) = name_at(text) else {
        return None;
    };
    Some((Dim::Named(name), rest))
}

#[tactic(auto, using(crate::proofs::Rounds::more_of_next, crate::proofs::Rounds::more_of_none))]
fn more_names(rounds: usize, first: Vec<Name>, text: &[u8]) -> Result<(List<Name>, &[u8]), Lack>
    ensures { Gives (λ r. (r.0, r.1.now)) result (more_of name_at rounds first.items text.now) }
{
    let mut all = first;
    let mut rest = text;
    let mut left = rounds;
    while left > 0 {
        left -= 1;
        if !begins(rest, b",") {
            return Ok((List::from_vec(all), rest));
        }
        let Some(next) = name_at(past(rest, 1)) else {
            return Err(Lack::Spelling);
        };
        pushed_name(&mut all, next.0)?;
        rest = next.1;
    }
    Err(Lack::Spelling)
}

// Names and the closing bracket.
#[tactic(auto, unfolding(crate::specs::Statements::rest_of_brackets, crate::specs::Statements::list_of))]
pub(crate) fn bracketed_names(
    alloc: Global,
    rounds: usize,
    text: &[u8],
) -> Result<(List<Name>, &[u8]), Lack>
    ensures { Gives (λ r. (r.0, r.1.now)) result (rest_of_brackets name_at rounds text.now) }
{
    let Some((first, rest)) = name_at(text) else {
        return Err(Lack::Spelling);
    };
    let mut all = Vec::new(alloc);
    pushed_name(&mut all, first)?;
    let (all, rest) = more_names(rounds, all, rest)?;
    let Some(rest) = after(rest, b")") else {
        return Err(Lack::Spelling);
    };
    Ok((all, rest))
}

// The same behind an opening bracket, or nothing.
#[tactic(auto, unfolding(crate::specs::Statements::brackets_at))]
pub(crate) fn optional_names(
    alloc: Global,
    rounds: usize,
    text: &[u8],
) -> Result<(List<Name>, &[u8]), Lack>
    ensures { Gives (λ r. (r.0, r.1.now)) result (brackets_at name_at rounds text.now) }
{
    if !begins(text, b"(") {
        return Ok((List::from_vec(Vec::new(alloc)), text));
    }
    bracketed_names(alloc, rounds, &text[1..])
}

#[tactic(auto, using(crate::proofs::Rounds::more_of_next, crate::proofs::Rounds::more_of_none))]
fn more_labels(rounds: usize, first: Vec<u32>, text: &[u8]) -> Result<(List<u32>, &[u8]), Lack>
    ensures { Gives (λ r. (r.0, r.1.now)) result (more_of label_at rounds first.items text.now) }
{
    let mut all = first;
    let mut rest = text;
    let mut left = rounds;
    while left > 0 {
        left -= 1;
        if !begins(rest, b",") {
            return Ok((List::from_vec(all), rest));
        }
        let Some((next, behind)) = label_at(past(rest, 1)) else {
            return Err(Lack::Spelling);
        };
        pushed_label(&mut all, next)?;
        rest = behind;
    }
    Err(Lack::Spelling)
}

// Labels and the closing bracket.
#[tactic(auto, unfolding(crate::specs::Statements::rest_of_brackets, crate::specs::Statements::list_of))]
pub(crate) fn bracketed_labels(
    alloc: Global,
    rounds: usize,
    text: &[u8],
) -> Result<(List<u32>, &[u8]), Lack>
    ensures { Gives (λ r. (r.0, r.1.now)) result (rest_of_brackets label_at rounds text.now) }
{
    let Some((first, rest)) = label_at(text) else {
        return Err(Lack::Spelling);
    };
    let mut all = Vec::new(alloc);
    pushed_label(&mut all, first)?;
    let (all, rest) = more_labels(rounds, all, rest)?;
    let Some(rest) = after(rest, b")") else {
        return Err(Lack::Spelling);
    };
    Ok((all, rest))
}

#[tactic(auto, using(crate::proofs::Rounds::more_of_next, crate::proofs::Rounds::more_of_none))]
fn more_dims(rounds: usize, first: Vec<Dim>, text: &[u8]) -> Result<(List<Dim>, &[u8]), Lack>
    ensures { Gives (λ r. (r.0, r.1.now)) result (more_of dim_at rounds first.items text.now) }
{
    let mut all = first;
    let mut rest = text;
    let mut left = rounds;
    while left > 0 {
        left -= 1;
        if !begins(rest, b",") {
            return Ok((List::from_vec(all), rest));
        }
        let Some((next, behind)) = dim_at(past(rest, 1)) else {
            return Err(Lack::Spelling);
        };
        pushed_dim(&mut all, next)?;
        rest = behind;
    }
    Err(Lack::Spelling)
}

// Dimensions and the closing bracket.
#[tactic(auto, unfolding(crate::specs::Statements::rest_of_brackets, crate::specs::Statements::list_of))]
pub(crate) fn bracketed_dims(
    alloc: Global,
    rounds: usize,
    text: &[u8],
) -> Result<(List<Dim>, &[u8]), Lack>
    ensures { Gives (λ r. (r.0, r.1.now)) result (rest_of_brackets dim_at rounds text.now) }
{
    let Some((first, rest)) = dim_at(text) else {
        return Err(Lack::Spelling);
    };
    let mut all = Vec::new(alloc);
    pushed_dim(&mut all, first)?;
    let (all, rest) = more_dims(rounds, all, rest)?;
    let Some(rest) = after(rest, b")") else {
        return Err(Lack::Spelling);
    };
    Ok((all, rest))
}

// The same behind an opening bracket, or nothing.
#[tactic(auto, unfolding(crate::specs::Statements::brackets_at))]
pub(crate) fn optional_dims(
    alloc: Global,
    rounds: usize,
    text: &[u8],
) -> Result<(List<Dim>, &[u8]), Lack>
    ensures { Gives (λ r. (r.0, r.1.now)) result (brackets_at dim_at rounds text.now) }
{
    if !begins(text, b"(") {
        return Ok((List::from_vec(Vec::new(alloc)), text));
    }
    bracketed_dims(alloc, rounds, &text[1..])
}

// A name with its dimensions.
#[tactic(auto, unfolding(crate::specs::Statements::item_at))]
fn item_at(alloc: Global, rounds: usize, text: &[u8]) -> Result<(Item, &[u8]), Lack>
    ensures { Gives (λ r. (r.0, r.1.now)) result (item_at rounds text.now) }
{
    let Some((name, rest)) = name_at(text) else {
        return Err(Lack::Spelling);
    };
    let (dims, rest) = optional_dims(alloc, rounds, rest)?;
    Ok((Item { name, dims }, rest))
}

#[tactic(auto, using(crate::proofs::Rounds::more_of_next, crate::proofs::Rounds::more_of_none))]
fn more_items(
    alloc: Global,
    rounds: usize,
    first: Vec<Item>,
    text: &[u8],
) -> Result<(List<Item>, &[u8]), Lack>
    ensures { Gives (λ r. (r.0, r.1.now)) result (more_of (item_at rounds) rounds first.items text.now) }
{
    let mut all = first;
    let mut rest = text;
    let mut left = rounds;
    while left > 0 {
        left -= 1;
        if !begins(rest, b",") {
            return Ok((List::from_vec(all), rest));
        }
        let (next, behind) = item_at(alloc, rounds, past(rest, 1))?;
        pushed_item(&mut all, next)?;
        rest = behind;
    }
    Err(Lack::Spelling)
}

// One or more items.
#[tactic(auto, unfolding(crate::specs::Statements::list_of))]
pub(crate) fn items_at(
    alloc: Global,
    rounds: usize,
    text: &[u8],
) -> Result<(List<Item>, &[u8]), Lack>
    ensures { Gives (λ r. (r.0, r.1.now)) result (list_of (item_at rounds) rounds text.now) }
{
    let (first, rest) = item_at(alloc, rounds, text)?;
    let mut all = Vec::new(alloc);
    pushed_item(&mut all, first)?;
    more_items(alloc, rounds, all, rest)
}
