// Whether the text of a term stands at the beginning of a text.
ghost use Rattle.std.specs.Prelude.{◌≡◌, ◌<◌, [], ◌∷◌, ◌++◌, length, codes, MatchOption, IfOk, OnOk};
ghost use Rattle.formula.specs.Atoms.{same_bytes};
ghost use Rattle.formula.specs.Pool.{tree_of, IsIn};
ghost use Rattle.event_text.specs.TermText.{function_text, name_at, term_text, truth_text};
ghost use Rattle.event_reading.specs.Matches.{Matches, Nears};
ghost use Rattle.event_reading.specs.Names.{known_names};
ghost use Rattle.event_reading.specs.Rests.{pending, rest_of, AreOpen};

use crate::bracket::Bracket;
use crate::comparing::Comparing;
use crate::known::Known;
use edge_io::{NoMemory, Stack};
use formula::{Func, Node, TermId, TermPool};
use std::alloc::Global;

/// Passes T or F.
fn put_truth(out: &mut Comparing<'_>, b: bool)
    ensures { Matches out.old out.new (truth_text b) }
{
    if b {
        out.put(b"T");
    } else {
        out.put(b"F");
    }
}

/// Passes the name of the definition of number k, and nothing where there is none.
fn put_name(out: &mut Comparing<'_>, known: &Known<'_>, k: usize)
    ensures { Matches out.old out.new (name_at (known_names known.now) k) }
{
    match known.name(k) {
        Some(name) => out.put(name.as_bytes()),
        None => out.put(b""),
    }
}

/// Passes the name of a function.
fn put_function(out: &mut Comparing<'_>, known: &Known<'_>, function: Func)
    ensures { Matches out.old out.new (function_text (known_names known.now) function) }
{
    match function {
        Func::BuiltIn(built_in) => out.put(built_in.name()),
        Func::Defined(k) => put_name(out, known, k),
    }
}

/// The next argument of an open bracket, and the bracket behind it.
fn next_argument(pool: &TermPool, bracket: Bracket) -> Option<(TermId, Bracket)>
    requires { IsIn pool.now bracket.id }
    ensures rest { MatchOption result (rest_of pool.now bracket ≡ []) (λ p. rest_of pool.now bracket
        ≡ p.0 ∷ rest_of pool.now p.1) }
    ensures below { MatchOption result (Unit {0}) (λ p. (p.0.place < bracket.id.place)
        × (p.1.id ≡ bracket.id)) }
{
    let args = pool.arguments(bracket.id);
    if bracket.at >= args.len() {
        return None;
    }
    let behind = Bracket {
        id: bracket.id,
        at: bracket.at + 1,
    };
    Some((args[bracket.at], behind))
}

/// Passes a term up to its arguments: the whole of one that has no bracket, and else a bracket is
/// open then.
fn begin_term(
    out: &mut Comparing<'_>,
    pool: &TermPool,
    known: &Known<'_>,
    stack: &mut Stack<Bracket>,
    id: TermId,
) -> Result<(), NoMemory>
    requires id { IsIn pool.now id }
    requires inside { AreOpen pool.now stack.old }
    ensures nears { OnOk result (Nears out.old out.new (term_text (known_names known.now)
        (tree_of pool.now id) ++ pending (known_names known.now) pool.now stack.old)
        (pending (known_names known.now) pool.now stack.new)) }
    ensures shorter { OnOk result (length (pending (known_names known.now) pool.now stack.new) < length (codes " " ++ (term_text (known_names known.now) (tree_of pool.now id) ++ pending (known_names known.now) pool.now stack.old))) }
    ensures inside { OnOk result (AreOpen pool.now stack.new) }
{
    match pool.node(id) {
        Node::Num(n) => out.put_signed(*n),
        Node::Truth(b) => put_truth(out, *b),
        Node::Symbol(name) => out.put(name.as_bytes()),
        Node::Old(name) => {
            out.put(b"(OLD ");
            out.put(name.as_bytes());
            out.put(b")");
        }
        Node::Apply(function, _) => {
            out.put(b"(");
            put_function(out, known, *function);
            stack.push(Bracket { id, at: 0 })?;
        }
    }
    Ok(())
}

/// Passes what comes next in a bracket that was taken from the stack: its end, or an argument up
/// to that one's arguments.
fn go_on(
    out: &mut Comparing<'_>,
    pool: &TermPool,
    known: &Known<'_>,
    stack: &mut Stack<Bracket>,
    bracket: Bracket,
) -> Result<(), NoMemory>
    requires inside { AreOpen pool.now (bracket ∷ stack.old) }
    ensures nears { OnOk result (Nears out.old out.new (pending (known_names known.now) pool.now
        (bracket ∷ stack.old)) (pending (known_names known.now) pool.now stack.new)) }
    ensures shorter { OnOk result (length (pending (known_names known.now) pool.now stack.new)
        < length (pending (known_names known.now) pool.now (bracket ∷ stack.old))) }
    ensures inside { OnOk result (AreOpen pool.now stack.new) }
{
    let Some((id, behind)) = next_argument(pool, bracket) else {
        out.put(b")");
        return Ok(());
    };
    stack.push(behind)?;
    out.put(b" ");
    begin_term(out, pool, known, stack, id)
}

/// Whether a text is that of a term. The open brackets stand in a list, and not on the call stack.
pub fn is_term_text(
    alloc: Global,
    pool: &TermPool,
    known: &Known<'_>,
    id: TermId,
    text: &[u8],
) -> Result<bool, NoMemory>
    requires { IsIn pool.now id }
    ensures { IfOk result (λ b. b ≡ same_bytes (term_text (known_names known.now)
        (tree_of pool.now id)) text.now) }
{
    let mut out = Comparing {
        rest: text,
        same: true,
    };
    let mut stack = Stack::new(alloc);
    begin_term(&mut out, pool, known, &mut stack, id)?;
    while let Some(bracket) = stack.pop() {
        go_on(&mut out, pool, known, &mut stack, bracket)?;
    }
    Ok(out.is_done())
}
