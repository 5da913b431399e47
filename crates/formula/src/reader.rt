// The reader of terms.
ghost use Rattle.std.specs.Prelude.{◌≡◌, ◌≢◌, ◌≤◌, true, false, length, IfOk, IfErr, Option, ℕ, option_copied};
ghost use Rattle.formula.specs.Pool.{Grows, IsIn, tree_of, trees};
ghost use Rattle.formula.specs.Reading.{head_named, wants_symbol, term_read, step, got, fault, reads};
ghost use Rattle.formula.specs.NextToken.{token_of};
ghost use Rattle.formula.specs.OpenCalls.{frames_of, state_of, CallsBelow, Stands, Leads};

use crate::atom_terms::{atom_read, symbol_read};
use crate::closing::closed_read;
use crate::open_calls::{Due, OpenCall, Turn};
use crate::opening::{name_read, opened_read};
use crate::{Heading, Headings, ReadFault, TermId, TermPool, Token, next_token};
use edge_io::Stack;
use std::alloc::Global;

#[tactic(auto, using(crate::proofs::Turns::closed_wanted))]
// A token where the symbol of an OLD is due.
fn symbol_due(
    pool: &mut TermPool,
    open: &mut Stack<OpenCall>,
    token: Token<'_>,
) -> Result<Turn, ReadFault>
    requires below { CallsBelow (length pool.old) «open».old }
    requires due { wants_symbol (frames_of (trees pool.old) «open».old) ≡ true }
    ensures leads { (limit : Option ℕ) → Leads pool.new result «open».new
        (term_read limit (token_of token.entry) (frames_of (trees pool.old) «open».old)) }
    ensures grows { Grows pool.old pool.new }
{
    let Token::Atom(atom) = token else {
        return Err(ReadFault::BadAtom);
    };
    symbol_read(pool, open, atom)
}

// A token where a term is due.
fn term_due(
    pool: &mut TermPool,
    limit: Option<usize>,
    open: &mut Stack<OpenCall>,
    token: Token<'_>,
) -> Result<Turn, ReadFault>
    requires below { CallsBelow (length pool.old) «open».old }
    requires due { wants_symbol (frames_of (trees pool.old) «open».old) ≡ false }
    ensures leads { Leads pool.new result «open».new (term_read limit (token_of token.entry)
        (frames_of (trees pool.old) «open».old)) }
    ensures grows { Grows pool.old pool.new }
{
    match token {
        Token::Opening => opened_read(limit, open),
        Token::Closing => closed_read(pool, open),
        Token::Atom(atom) => atom_read(pool, open, atom),
    }
}

// One token.
fn token_read(
    alloc: Global,
    pool: &mut TermPool,
    headings: &Headings,
    next: Option<&Heading>,
    limit: Option<usize>,
    open: &mut Stack<OpenCall>,
    due: Due,
    token: Token<'_>,
) -> Result<Turn, ReadFault>
    requires { Stands pool.old due «open».old }
    ensures leads { Leads pool.new result «open».new
        (step (head_named headings.now (option_copied next.entry)) limit
        (state_of (trees pool.old) due «open».old) (token_of token.entry)) }
    ensures grows { Grows pool.old pool.new }
{
    match due {
        Due::Name => name_read(alloc, headings, next, open, token),
        Due::Symbol => symbol_due(pool, open, token),
        Due::Term => term_due(pool, limit, open, token),
    }
}

/// Reads the term that begins a text. It answers its id and the number of bytes taken, or the
/// first fault from the left; `NoMemory` may come at any token. The text may use the definitions of
/// the headings, and `next`, whose body is being read. At most `limit` brackets may be open at once.
/// The pool keeps what was read before a fault.
pub fn read_term(
    alloc: Global,
    pool: &mut TermPool,
    headings: &Headings,
    next: Option<&Heading>,
    limit: Option<usize>,
    text: &[u8],
) -> Result<(TermId, usize), ReadFault>
    ensures term { IfOk result (λ r. IsIn pool.new r.0
        × (reads (head_named headings.now (option_copied next.entry)) limit text.now
        ≡ got (tree_of pool.new r.0) r.1)) }
    ensures taken { IfOk result (λ r. r.1 ≤ length text.now) }
    ensures fault { IfErr result (λ f. f ≢ ReadFault.NoMemory
        → reads (head_named headings.now (option_copied next.entry)) limit text.now ≡ fault f) }
    ensures grows { Grows pool.old pool.new }
{
    let mut open = Stack::new(alloc);
    let mut due = Due::Term;
    let mut at = 0;
    while let Some(lexeme) = next_token(text, at) {
        at = lexeme.after;
        match token_read(
            alloc,
            pool,
            headings,
            next,
            limit,
            &mut open,
            due,
            lexeme.token,
        )? {
            Turn::Whole(id) => return Ok((id, at)),
            Turn::Going(then) => due = then,
        }
    }
    Err(ReadFault::Unbalanced)
}
