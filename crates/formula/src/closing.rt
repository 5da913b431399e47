// Closing brackets.
ghost use Rattle.std.specs.Prelude.{◌≡◌, ◌≢◌, [], ◌∷◌, false, IfNone, IfSome, if◌then◌else◌, length};
ghost use Rattle.formula.specs.Tree.{takes, is_blank_row};
ghost use Rattle.formula.specs.Pool.{AllBelow, row_in, trees, Grows};
ghost use Rattle.formula.specs.Reading.{stopped, is_empty_list, wants_symbol, entry_closed, closed, closed_read};
ghost use Rattle.formula.specs.OpenCalls.{trees_in, frames_of, CallsBelow, Leads};

use crate::open_calls::{OpenCall, Turn, given};
use crate::{Args, Arity, BuiltIn, Func, Head, Node, ReadFault, TermId, TermPool};
use edge_io::Stack;

// The one argument, where there is just one.
fn single_argument(args: &[TermId]) -> Option<TermId>
    ensures none { IfNone result (length args.now ≢ 1) }
    ensures some { IfSome result (λ id. args.now ≡ id ∷ []) }
{
    match args {
        [id] => Some(*id),
        _ => None,
    }
}

#[tactic(auto, using(crate::proofs::Turns::blank_takes_one))]
// Whether BLANK takes these arguments.
fn takes_blank(pool: &TermPool, args: &[TermId]) -> bool
    requires { AllBelow (length pool.now) args.now }
    ensures { result ≡ is_blank_row (row_in (trees pool.now) args.now) }
{
    let Some(id) = single_argument(args) else {
        return false;
    };
    match pool.node(id) {
        Node::Num(n) => 0 <= *n && *n <= 1_000_000,
        _ => false,
    }
}

#[tactic(auto, using(crate::proofs::Turns::takes_count, crate::proofs::Turns::counts))]
// Whether a built-in function takes these arguments.
fn built_in_takes(pool: &TermPool, f: BuiltIn, args: &[TermId]) -> bool
    requires { AllBelow (length pool.now) args.now }
    ensures { result ≡ takes (Func.BuiltIn f) (row_in (trees pool.now) args.now) }
{
    match f {
        BuiltIn::Blank => takes_blank(pool, args),
        _ => f.arity().fits(args.len()),
    }
}

/// Whether a function takes these arguments.
pub fn takes(pool: &TermPool, f: Func, args: &[TermId]) -> bool
    requires { AllBelow (length pool.now) args.now }
    ensures { result ≡ takes f (row_in (trees pool.now) args.now) }
{
    match f {
        Func::Defined(_) => true,
        Func::BuiltIn(f) => built_in_takes(pool, f, args),
    }
}

#[tactic(auto, using(crate::proofs::Turns::old_takes_one))]
// The bracket of an OLD is closed behind these arguments.
fn entry_closed(
    pool: &mut TermPool,
    open: &mut Stack<OpenCall>,
    args: &[TermId],
) -> Result<Turn, ReadFault>
    requires args { AllBelow (length pool.old) args.now }
    requires open { CallsBelow (length pool.old) «open».old }
    ensures leads { Leads pool.new result «open».new
        (entry_closed (trees_in (trees pool.old) args.now) (frames_of (trees pool.old)
        «open».old)) }
    ensures grows { Grows pool.old pool.new }
{
    let Some(id) = single_argument(args) else {
        return Err(ReadFault::BadCount);
    };
    let Node::Symbol(name) = pool.node(id) else {
        return Err(ReadFault::BadCount);
    };
    let name = *name;
    let id = pool.entry(name)?;
    given(open, id)
}

#[tactic(auto, using(crate::proofs::Turns::counts))]
// The bracket of a function is closed behind these arguments.
fn function_closed(
    pool: &mut TermPool,
    open: &mut Stack<OpenCall>,
    f: Func,
    arity: Arity,
    args: Vec<TermId>,
) -> Result<Turn, ReadFault>
    requires args { AllBelow (length pool.old) args.items }
    requires open { CallsBelow (length pool.old) «open».old }
    ensures leads { Leads pool.new result «open».new (closed (Head.Function f arity)
        (trees_in (trees pool.old) args.items) (frames_of (trees pool.old) «open».old)) }
    ensures grows { Grows pool.old pool.new }
{
    if !arity.fits(args.len()) {
        return Err(ReadFault::BadCount);
    }
    if !takes(pool, f, &args) {
        return Err(ReadFault::BadCount);
    }
    let id = pool.apply(f, Args::from_vec(args))?;
    given(open, id)
}

/// A closing bracket, where no symbol of an OLD is due.
pub fn closed_read(pool: &mut TermPool, open: &mut Stack<OpenCall>) -> Result<Turn, ReadFault>
    requires open { CallsBelow (length pool.old) «open».old }
    requires due { wants_symbol (frames_of (trees pool.old) «open».old) ≡ false }
    ensures leads { Leads pool.new result «open».new (closed_read (frames_of (trees pool.old) «open».old)) }
    ensures grows { Grows pool.old pool.new }
{
    let Some(call) = open.pop() else {
        return Err(ReadFault::Unbalanced);
    };
    match call.head {
        Head::EntryValue => entry_closed(pool, open, &call.args),
        Head::Function(f, arity) => function_closed(pool, open, f, arity, call.args),
    }
}
