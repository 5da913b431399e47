// The open brackets of a term that is being read.
ghost use Rattle.std.specs.Prelude.{◌≡◌, length, List};
ghost use Rattle.formula.specs.declared.node.Node.{Node};
ghost use Rattle.formula.specs.Tree.{Tree};
ghost use Rattle.formula.specs.Pool.{Grows, IsIn, tree_of, trees};
ghost use Rattle.formula.specs.Reading.{given};
ghost use Rattle.formula.specs.OpenCalls.{frames_of, CallsBelow, Leads};

use crate::{Head, ReadFault, TermId};
use edge_io::Stack;

/// An open bracket: its head, and the arguments so far.
#[derive(Drop)]
pub struct OpenCall {
    pub head: Head,
    pub args: Vec<TermId>,
}

/// What the next token is to begin.
#[derive(Clone, Copy, Debug)]
pub enum Due {
    /// A term, or it closes a bracket.
    Term,
    /// The symbol of an OLD.
    Symbol,
    /// The name of a function: a bracket was opened.
    Name,
}

/// What a token led to.
#[derive(Clone, Copy, Debug)]
pub enum Turn {
    /// The term is read.
    Whole(TermId),
    Going(Due),
}

/// A term is whole: it is an argument of the innermost bracket, or the answer. The pool grew from
/// `before` while it was made.
pub fn given(open: &mut Stack<OpenCall>, id: TermId) -> Result<Turn, ReadFault>
    ensures { (before pool : List Node) (t : Tree) → Grows before pool
        → CallsBelow (length before) «open».old → IsIn pool id → tree_of pool id ≡ t
        → Leads pool result «open».new (given t (frames_of (trees before) «open».old)) }
{
    let Some(mut call) = open.pop() else {
        return Ok(Turn::Whole(id));
    };
    call.args.push(id)?;
    open.push(call)?;
    Ok(Turn::Going(Due::Term))
}
