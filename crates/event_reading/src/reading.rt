// Event text, read back.
ghost use Rattle.std.specs.Prelude.{◌≡◌, ◌<◌, ◌^◌, [], ◌∷◌, ◌++◌, length, IfOk, IfErr, OnOk};
ghost use Rattle.formula.specs.Atoms.{same_bytes};
ghost use Rattle.formula.specs.Pool.{Grows};
ghost use Rattle.event_text.specs.EventText.{closing_line};
ghost use Rattle.event_reading.specs.Events.{IsRead, IsRefused};
ghost use Rattle.event_reading.specs.Reads.{ReadsAsked, ReadsConditions, ReadsDefinitions};

use crate::comparing::Comparing;
use crate::condition::condition_at;
use crate::definition::definition_at;
use crate::lack::Lack;
use crate::prover::asked_at;
use crate::{EventFault, Events};
use edge_io::{Keys, List, NoMemory};
use event_text::Marks;
use formula::{Definitions, Headings, TermPool};
use fort_syntax::Condition;
use std::alloc::Global;

// The definitions that begin a text, and the text behind their lines.
fn definitions_at<'a>(
    alloc: Global,
    pool: &mut TermPool,
    definitions: &mut Definitions,
    text: &'a [u8],
) -> Result<&'a [u8], NoMemory>
    requires { definitions.old ≡ [] }
    ensures ok { IfOk result (λ rest. ReadsDefinitions pool.new text.now definitions.new rest.now) }
    ensures grows { Grows pool.old pool.new }
{
    let mut rest = text;
    loop {
        match definition_at(alloc, pool, definitions, rest) {
            Ok(behind) => rest = behind,
            Err(Lack::Spelling) => return Ok(rest),
            Err(Lack::Memory) => return Err(NoMemory),
        }
    }
}

// Conditions, and a mark for each.
#[derive(Drop)]
struct Marked {
    conditions: List<Condition>,
    letters: List<u8>,
}

// One more condition, and its mark.
fn push_marked(
    conditions: &mut Vec<Condition>,
    letters: &mut Vec<u8>,
    one: (Condition, u8),
) -> Result<(), NoMemory>
    ensures conditions { OnOk result (conditions.new.items ≡ conditions.old.items ++ one.0 ∷ []) }
    ensures letters { OnOk result (letters.new.items ≡ letters.old.items ++ one.1 ∷ []) }
{
    let (condition, mark) = one;
    let Ok(()) = conditions.push(condition) else {
        return Err(NoMemory);
    };
    let Ok(()) = letters.push(mark) else {
        return Err(NoMemory);
    };
    Ok(())
}

// The conditions that begin a text and their marks, and the text behind their lines.
fn conditions_at<'a>(
    alloc: Global,
    pool: &mut TermPool,
    headings: &Headings,
    text: &'a [u8],
) -> Result<(Marked, &'a [u8]), NoMemory>
    ensures ok { IfOk result (λ r. ReadsConditions pool.new headings.now text.now r.0.conditions
        r.0.letters r.1.now) }
    ensures few { IfOk result (λ r. length r.0.conditions < 2 ^ 64) }
    ensures grows { Grows pool.old pool.new }
{
    let mut conditions = Vec::new(alloc);
    let mut letters = Vec::new(alloc);
    let mut rest = text;
    loop {
        match condition_at(alloc, pool, headings, rest) {
            Ok((one, behind)) => {
                let Ok(()) = push_marked(&mut conditions, &mut letters, one) else {
                    return Err(NoMemory);
                };
                rest = behind;
            }
            Err(Lack::Spelling) => {
                let marked = Marked {
                    conditions: List::from_vec(conditions),
                    letters: List::from_vec(letters),
                };
                return Ok((marked, rest));
            }
            Err(Lack::Memory) => return Err(NoMemory),
        }
    }
}

// The counts of the provers that begin a text, and the text behind their lines.
fn provers_at(alloc: Global, text: &[u8]) -> Result<(List<(u8, u64)>, &[u8]), NoMemory>
    ensures { IfOk result (λ r. ReadsAsked text.now r.0 r.1.now) }
{
    let mut asked = Vec::new(alloc);
    let mut rest = text;
    while let Some((one, behind)) = asked_at(rest) {
        let Ok(()) = asked.push(one) else {
            return Err(NoMemory);
        };
        rest = behind;
    }
    Ok((List::from_vec(asked), rest))
}

// Whether a text is the closing line.
fn is_closing(text: &[u8], count: usize) -> bool
    ensures { result ≡ same_bytes (closing_line count) text.now }
{
    let mut out = Comparing {
        rest: text,
        same: true,
    };
    out.put(b"; ");
    out.put_number(count as u64);
    out.put(b" CONDITIONS\n");
    out.is_done()
}

/// Reads definitions, conditions and marks back from their text. Its terms are put into the pool,
/// and no answer depends on the keys. A definition whose term gives its second part where the first
/// parameter is at most 0 is read as one that counts.
///
/// `BadEvent` is answered just where the text is that of no list that can be read back; what was
/// read stays in the pool.
pub fn read_events(
    alloc: Global,
    keys: Keys,
    pool: &mut TermPool,
    text: &[u8],
) -> Result<Events, EventFault>
    ensures ok { IfOk result (λ e. IsRead text.now pool.new e) }
    ensures refused { IfErr result (λ f. IsRefused text.now f) }
    ensures grows { Grows pool.old pool.new }
{
    let mut definitions = Definitions::new(alloc, keys);
    let Ok(rest) = definitions_at(alloc, pool, &mut definitions, text) else {
        return Err(EventFault::NoMemory);
    };
    let read = conditions_at(alloc, pool, definitions.headings(), rest);
    let Ok((marked, rest)) = read else {
        return Err(EventFault::NoMemory);
    };
    let Ok((asked, rest)) = provers_at(alloc, rest) else {
        return Err(EventFault::NoMemory);
    };
    let Marked {
        conditions,
        letters,
    } = marked;
    if !is_closing(rest, conditions.as_slice().len()) {
        return Err(EventFault::BadEvent {
            at: text.len() - rest.len(),
        });
    }
    Ok(Events {
        definitions,
        conditions,
        marks: Marks { letters, asked },
    })
}
