// Opening brackets, and the names behind them.
ghost use Rattle.std.specs.Prelude.{◌≡◌, false, length, List, option_copied};
ghost use Rattle.formula.specs.declared.node.Node.{Node};
ghost use Rattle.formula.specs.Pool.{trees};
ghost use Rattle.formula.specs.Reading.{head_named, is_deepest, wants_symbol, opened_read, head_read, name_read};
ghost use Rattle.formula.specs.NextToken.{token_of};
ghost use Rattle.formula.specs.OpenCalls.{frames_of, CallsBelow, Leads};

use crate::open_calls::{Due, OpenCall, Turn};
use crate::{Head, Heading, Headings, ReadFault, Token, head_of, is_function_name};
use edge_io::Stack;
use std::alloc::Global;

#[tactic(auto, using(crate::proofs::Turns::opened_deep, crate::proofs::Turns::opened_room))]
/// An opening bracket, where no symbol of an OLD is due and at most so many may be open.
pub fn opened_read(limit: Option<usize>, open: &Stack<OpenCall>) -> Result<Turn, ReadFault>
    ensures { (pool : List Node) → CallsBelow (length pool) «open».now
        → wants_symbol (frames_of (trees pool) «open».now) ≡ false → Leads pool result «open».now
        (opened_read limit (frames_of (trees pool) «open».now)) }
{
    if is_deepest(limit, open.len()) {
        return Err(ReadFault::TooDeep);
    }
    Ok(Turn::Going(Due::Name))
}

// Whether so many open brackets are as many as may be.
fn is_deepest(limit: Option<usize>, count: usize) -> bool
    ensures { result ≡ is_deepest limit count }
{
    match limit {
        Some(most) => most <= count,
        None => false,
    }
}

// The bracket of this head is open.
fn head_read(
    alloc: Global,
    open: &mut Stack<OpenCall>,
    head: Option<Head>,
) -> Result<Turn, ReadFault>
    ensures { (pool : List Node) → CallsBelow (length pool) «open».old
        → Leads pool result «open».new (head_read head (frames_of (trees pool) «open».old)) }
{
    let Some(head) = head else {
        return Err(ReadFault::UnknownFunction);
    };
    let args = Vec::new(alloc);
    open.push(OpenCall { head, args })?;
    match head {
        Head::EntryValue => Ok(Turn::Going(Due::Symbol)),
        Head::Function(_, _) => Ok(Turn::Going(Due::Term)),
    }
}

/// The token behind an opening bracket.
pub fn name_read(
    alloc: Global,
    headings: &Headings,
    next: Option<&Heading>,
    open: &mut Stack<OpenCall>,
    token: Token<'_>,
) -> Result<Turn, ReadFault>
    ensures { (pool : List Node) → CallsBelow (length pool) «open».old
        → Leads pool result «open».new (name_read (head_named headings.now
        (option_copied next.entry)) (token_of token.entry) (frames_of (trees pool) «open».old)) }
{
    let Token::Atom(name) = token else {
        return Err(ReadFault::BadAtom);
    };
    if !is_function_name(name) {
        return Err(ReadFault::BadAtom);
    }
    head_read(alloc, open, head_of(headings, next, name))
}
