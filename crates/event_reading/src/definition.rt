// Definitions.
ghost use Rattle.std.specs.Prelude.{◌≡◌, ◌≢◌, ◌∷◌, [], ◌++◌, Some, None, List, ℕ, IfOk, IfErr, OnOk, OnErr};
ghost use Rattle.formula.specs.Adding.{AreAdded};
ghost use Rattle.formula.specs.Headings.{heading_with, headings_of};
ghost use Rattle.formula.specs.Pool.{Grows, IsIn, tree_of};
ghost use Rattle.event_reading.specs.Answers.{Gives};
ghost use Rattle.event_reading.specs.Reads.{ReadsDefinition};
ghost use Rattle.event_reading.specs.Lines.{body_at, definition_at, heading_at, more_parameters, parameters_at};

use crate::known::Known;
use crate::lack::Lack;
use crate::shapes::counted;
use crate::term::term_at;
use crate::tokens::{after, function_name_at, parameter_at};
use edge_io::List;
use formula::{DefFault, Definitions, Heading, TermId, TermPool, Word};
use std::alloc::Global;

// One more at the end.
fn pushed(all: &mut Vec<Word>, x: Word) -> Result<(), Lack>
    ensures ok { OnOk result (all.new.items ≡ all.old.items ++ x ∷ []) }
    ensures err { IfErr result (λ l. l ≡ Lack.Memory) }
{
    match all.push(x) {
        Ok(()) => Ok(()),
        Err(_) => Err(Lack::Memory),
    }
}

#[tactic(auto, using(crate::proofs::Rounds::more_ends, crate::proofs::Rounds::more_none, crate::proofs::Rounds::more_lacks, crate::proofs::Rounds::more_lacks_word, crate::proofs::Rounds::more_goes))]
// Further parameters, each behind a blank, and the closing bracket.
fn more_parameters(
    rounds: usize,
    first: Vec<Word>,
    text: &[u8],
) -> Result<(List<Word>, &[u8]), Lack>
    ensures { Gives (λ r. (r.0, r.1.now)) result (more_parameters rounds first.items text.now) }
{
    let mut all = first;
    let mut rest = text;
    let mut left = rounds;
    while left > 0 {
        left -= 1;
        if let Some(behind) = after(rest, b")") {
            return Ok((List::from_vec(all), behind));
        }
        let Some(behind) = after(rest, b" ") else {
            return Err(Lack::Spelling);
        };
        let Some((next, behind)) = parameter_at(behind) else {
            return Err(Lack::Spelling);
        };
        pushed(&mut all, next)?;
        rest = behind;
    }
    Err(Lack::Spelling)
}

#[tactic(auto, unfolding(crate::specs::Lines::parameters_at))]
// Parameters and the closing bracket.
fn parameters_at(alloc: Global, rounds: usize, text: &[u8]) -> Result<(List<Word>, &[u8]), Lack>
    ensures { Gives (λ r. (r.0, r.1.now)) result (parameters_at rounds text.now) }
{
    let mut all = Vec::new(alloc);
    if let Some(behind) = after(text, b")") {
        return Ok((List::from_vec(all), behind));
    }
    let Some((first, rest)) = parameter_at(text) else {
        return Err(Lack::Spelling);
    };
    pushed(&mut all, first)?;
    more_parameters(rounds, all, rest)
}

#[tactic(auto, unfolding(crate::specs::Lines::heading_at))]
// A name and parameters.
fn heading_at(alloc: Global, text: &[u8]) -> Result<((Word, List<Word>), &[u8]), Lack>
    ensures { Gives (λ r. ((r.0.0, r.0.1), r.1.now)) result (heading_at text.now) }
{
    let Some(rest) = after(text, b"(DEFN ") else {
        return Err(Lack::Spelling);
    };
    let Some((name, rest)) = function_name_at(rest) else {
        return Err(Lack::Spelling);
    };
    let Some(rest) = after(rest, b" (") else {
        return Err(Lack::Spelling);
    };
    let (params, rest) = parameters_at(alloc, rest.len(), rest)?;
    Ok(((name, params), rest))
}

// The term of a body, and the end of the line.
#[tactic(auto, unfolding(crate::specs::Lines::body_at))]
fn body_at<'a>(
    alloc: Global,
    pool: &mut TermPool,
    known: &Known<'_>,
    text: &'a [u8],
) -> Result<(TermId, &'a [u8]), Lack>
    ensures body { (name : List ℕ) (params : List (List ℕ)) → known.now.next ≡ Some
        (heading_with name params) → Gives (λ r. (tree_of pool.new r.0, r.1.now)) result
        (body_at known.now.headings.now name params text.now) }
    ensures is_in { IfOk result (λ r. IsIn pool.new r.0) }
    ensures grows { Grows pool.old pool.new }
{
    let Some(rest) = after(text, b" ") else {
        return Err(Lack::Spelling);
    };
    let (id, rest) = term_at(alloc, pool, known, rest)?;
    let Some(rest) = after(rest, b")\n") else {
        return Err(Lack::Spelling);
    };
    Ok((id, rest))
}

// Why a definition was not added.
fn lack_of(fault: DefFault) -> Lack
    ensures { result ≡ Lack.Spelling → fault ≢ DefFault.NoMemory }
{
    match fault {
        DefFault::NoMemory => Lack::Memory,
        _ => Lack::Spelling,
    }
}

#[tactic(auto, unfolding(crate::specs::Lines::definition_at))]
/// Adds the definition that begins a text, and answers the text behind it. Where the text begins
/// with none, or there is no memory, the definitions are as before.
pub fn definition_at<'a>(
    alloc: Global,
    pool: &mut TermPool,
    definitions: &mut Definitions,
    text: &'a [u8],
) -> Result<&'a [u8], Lack>
    ensures ok { IfOk result (λ rest. ReadsDefinition pool.new definitions.old definitions.new
        text.now rest.now) }
    ensures none { IfErr result (λ l. l ≡ Lack.Spelling
        → definition_at (headings_of definitions.old) text.now ≡ None) }
    ensures unchanged { OnErr result (definitions.new ≡ definitions.old) }
    ensures added { AreAdded pool.old definitions.old → AreAdded pool.new definitions.new }
    ensures grows { Grows pool.old pool.new }
{
    let ((name, params), rest) = heading_at(alloc, text)?;
    let known = Known {
        headings: definitions.headings(),
        next: Some(Heading {
            name,
            count: params.as_slice().len(),
        }),
    };
    let (id, rest) = body_at(alloc, pool, &known, rest)?;
    let body = counted(pool, params.as_slice(), id);
    match definitions.add(pool, name, params, body) {
        Ok(()) => Ok(rest),
        Err(fault) => Err(lack_of(fault)),
    }
}
