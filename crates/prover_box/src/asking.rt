// All conditions to all provers.
ghost use Rattle.std.specs.Prelude.{◌≡◌, map, IfOk};
ghost use Rattle.std.specs.List.{All};
ghost use Rattle.event_text.specs.Conditions.{IsConditionIn, condition_tree};
ghost use Rattle.formula.specs.Worth.{functions_of};
ghost use Rattle.formula.specs.Adding.{AreAdded};
ghost use Rattle.prover_box.specs.Answers.{AreAsked, AreAskedOnce, AreKept, AreMarked, IsAnswer, once_more, shown, told};

use crate::Prover;
use edge_io::{List, NoMemory};
use event_text::Marks;
use formula::{Definitions, TermPool};
use fort_syntax::Condition;
use std::alloc::Global;

/// Puts a condition to a prover.
fn ask(
    alloc: Global,
    prover: &mut Box<dyn Prover>,
    pool: &TermPool,
    definitions: &Definitions,
    c: &Condition,
) -> Result<bool, NoMemory>
    requires terms { IsConditionIn pool.now c.now }
    requires added { AreAdded pool.now definitions.now }
    ensures answer { IfOk result (λ closed. IsAnswer pool.now definitions.now c.now
        (seen prover.old).test closed) }
    ensures counted { seen prover.new ≡ once_more (seen prover.old) }
{
    prover.close(alloc, pool, definitions, c)
}

/// A letter from A to Z as it is, and X for any other.
fn shown_letter(letter: u8) -> u8
    ensures { result ≡ shown letter }
{
    if letter >= b'A' && letter <= b'Z' {
        letter
    } else {
        b'X'
    }
}

/// A prover's letter, as it is shown.
fn letter_of(prover: &Box<dyn Prover>) -> u8
    ensures { result ≡ shown (seen prover.now).letter }
{
    shown_letter(prover.letter())
}

/// A prover's letter, as it is shown, and how often it was asked.
fn told_of(prover: &Box<dyn Prover>) -> (u8, u64)
    ensures { result ≡ told (seen prover.now) }
{
    (letter_of(prover), prover.asked())
}

/// Puts a condition to each prover in order, until one says yes, whose letter is the answer.
fn close_one(
    alloc: Global,
    provers: &mut Vec<Box<dyn Prover>>,
    pool: &TermPool,
    definitions: &Definitions,
    c: &Condition,
) -> Result<u8, NoMemory>
    requires terms { IsConditionIn pool.now c.now }
    requires added { AreAdded pool.now definitions.now }
    ensures asked { IfOk result (AreAskedOnce pool.now definitions.now c.now
        (map seen provers.old.items) (map seen provers.new.items)) }
    ensures kept { AreKept (map seen provers.old.items) (map seen provers.new.items) }
{
    for i in 0..provers.len() {
        if ask(alloc, &mut provers[i], pool, definitions, c)? {
            return Ok(letter_of(&provers[i]));
        }
    }
    Ok(b'-')
}

/// The letters and the counts of provers, in order.
fn counts(alloc: Global, provers: &Vec<Box<dyn Prover>>) -> Result<List<(u8, u64)>, NoMemory>
    ensures { IfOk result (λ asked. asked ≡ map told (map seen provers.now.items)) }
{
    let mut asked = Vec::new(alloc);
    for prover in provers.as_slice() {
        let Ok(()) = asked.push(told_of(prover)) else {
            return Err(NoMemory);
        };
    }
    Ok(List::from_vec(asked))
}

/// Puts each condition, in order, to the provers in order, until one says yes. The conditions have
/// their terms in the pool. The mark of a condition is the letter of the prover that said yes, X for
/// a letter that is none from A to Z; where all said no, it is `-`. So a condition with a letter is
/// valid. Beside the marks stand the letters of all provers and how often each was asked by then.
/// Whatever is answered, provers keep their letters and tests, and no count falls.
pub fn close_all(
    alloc: Global,
    provers: &mut Vec<Box<dyn Prover>>,
    pool: &TermPool,
    definitions: &Definitions,
    conditions: &List<Condition>,
) -> Result<Marks, NoMemory>
    requires terms { All (IsConditionIn pool.now) conditions.now }
    requires added { AreAdded pool.now definitions.now }
    ensures asked { IfOk result (λ m. AreAsked pool.now definitions.now (map seen provers.old.items)
        conditions.now (map seen provers.new.items) m.letters) }
    ensures sound { IfOk result (λ m. AreMarked (functions_of pool.now definitions.now) m.letters
        (map (condition_tree pool.now) conditions.now)) }
    ensures told { IfOk result (λ m. m.asked ≡ map told (map seen provers.new.items)) }
    ensures kept { AreKept (map seen provers.old.items) (map seen provers.new.items) }
{
    let mut letters = Vec::new(alloc);
    for c in conditions.as_slice() {
        let mark = close_one(alloc, provers, pool, definitions, c)?;
        let Ok(()) = letters.push(mark) else {
            return Err(NoMemory);
        };
    }
    let asked = counts(alloc, provers)?;
    Ok(Marks {
        letters: List::from_vec(letters),
        asked,
    })
}
