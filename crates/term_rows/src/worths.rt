// Definitions, values of symbols, terms, and what they are worth: one line each.
ghost use Rattle.std.specs.Prelude.{IfOk, OnOk};
ghost use Rattle.formula.specs.Adding.{AreBodiesIn, IsBodyIn};
ghost use Rattle.formula.specs.Pool.{Grows};

use crate::terms::term_text;
use crate::values::{value, value_text};
use anyhow::{Result, bail};
use edge_io::{Keys, List};
use formula::{Body, Definitions, Heading, ReadFault, TermPool, Word, read_term};
use std::alloc::Global;
use std::str;
use term_worth::{Sheet, worth};

/// The most brackets that may be open at once.
const LIMIT: Option<usize> = Some(64);

/// What the lines up to now made.
#[derive(Drop)]
struct Made {
    pool: TermPool,
    definitions: Definitions,
    sheet: Sheet,
}

fn word(bytes: &[u8]) -> Result<Word> {
    match Word::new(bytes) {
        Some(word) => Ok(word),
        None => bail!("no word"),
    }
}

// What stands before the `=` of a definition.
#[derive(Drop)]
struct Front {
    name: Word,
    params: Vec<Word>,
}

// The name and the parameters of a definition, with a blank between two of them.
fn read_front(alloc: Global, text: &[u8]) -> Result<Front> {
    let mut words = text.split(|byte| *byte == b' ');
    let name = word(words.next().unwrap_or(b""))?;
    let mut params = Vec::new(alloc);
    for param in words {
        params.push(word(param)?)?;
    }
    Ok(Front { name, params })
}

#[tactic(auto, using(crate::proofs::Kept::grown_twice))]
// The body of one term, or of two.
fn body(
    alloc: Global,
    pool: &mut TermPool,
    definitions: &Definitions,
    heading: &Heading,
    text: &[u8],
) -> Result<Body, ReadFault>
    ensures body { IfOk result (λ b. IsBodyIn pool.new b) }
    ensures grows { Grows pool.old pool.new }
{
    let (first, end) = read_term(
        alloc,
        pool,
        definitions.headings(),
        Some(heading),
        LIMIT,
        text,
    )?;
    if end == text.len() {
        return Ok(Body::Plain(first));
    }
    let (second, _) = read_term(
        alloc,
        pool,
        definitions.headings(),
        Some(heading),
        LIMIT,
        &text[end..],
    )?;
    Ok(Body::Counting(first, second))
}

#[tactic(auto, using(crate::proofs::Kept::bodies_grown, crate::proofs::Kept::bodies_added))]
// Adds a definition of one term or two.
fn define(alloc: Global, made: &mut Made, head: &[u8], terms: &[u8]) -> Result<String>
    requires { AreBodiesIn made.old.pool made.old.definitions }
    ensures { OnOk result (AreBodiesIn made.new.pool made.new.definitions) }
{
    let Front { name, params } = read_front(alloc, head)?;
    let heading = Heading {
        name,
        count: params.len(),
    };
    let body = match body(alloc, &mut made.pool, &made.definitions, &heading, terms) {
        Ok(body) => body,
        Err(fault) => return Ok(format!(in alloc; "{fault}")?),
    };
    match made
        .definitions
        .add(&made.pool, name, List::from_vec(params), body)
    {
        Ok(()) => Ok(String::from_str(alloc, "added")?),
        Err(fault) => Ok(format!(in alloc; "{fault}")?),
    }
}

// Gives a symbol a value.
fn set(alloc: Global, sheet: &mut Sheet, symbol: &[u8], text: &[u8]) -> Result<String> {
    match sheet.set(word(symbol)?, value(alloc, text)?) {
        Ok(()) => Ok(String::from_str(alloc, "set")?),
        Err(fault) => Ok(format!(in alloc; "{fault}")?),
    }
}

#[tactic(auto, using(crate::proofs::Kept::bodies_grown))]
// The term that a text begins with, as it is written; and where it ends, if the text goes on.
fn term(alloc: Global, made: &mut Made, text: &[u8]) -> Result<String>
    requires { AreBodiesIn made.old.pool made.old.definitions }
    ensures { OnOk result (AreBodiesIn made.new.pool made.new.definitions) }
{
    match read_term(
        alloc,
        &mut made.pool,
        made.definitions.headings(),
        None,
        LIMIT,
        text,
    ) {
        Ok((id, end)) => {
            let written = term_text(alloc, &made.pool, &made.definitions, id)?;
            if end == text.len() {
                return Ok(written);
            }
            Ok(format!(in alloc; "{written} to {end}")?)
        }
        Err(fault) => Ok(format!(in alloc; "{fault}")?),
    }
}

#[tactic(auto, using(crate::proofs::Kept::bodies_grown))]
// What a term is worth with so many turns.
fn worth_text(alloc: Global, made: &mut Made, turns: u64, text: &[u8]) -> Result<String>
    requires { AreBodiesIn made.old.pool made.old.definitions }
    ensures { OnOk result (AreBodiesIn made.new.pool made.new.definitions) }
{
    match read_term(
        alloc,
        &mut made.pool,
        made.definitions.headings(),
        None,
        LIMIT,
        text,
    ) {
        Ok((id, _)) => {
            match worth(alloc, &made.pool, &made.definitions, id, &made.sheet, turns) {
                Ok(value) => value_text(alloc, &value),
                Err(why) => Ok(format!(in alloc; "{why}")?),
            }
        }
        Err(fault) => Ok(format!(in alloc; "{fault}")?),
    }
}

// The answer to a line.
fn answer(alloc: Global, made: &mut Made, line: &[u8]) -> Result<String>
    requires { AreBodiesIn made.old.pool made.old.definitions }
    ensures { OnOk result (AreBodiesIn made.new.pool made.new.definitions) }
{
    let mut parts = line.split(|byte| *byte == b'=');
    let (Some([left @ .., b' ']), Some([b' ', right @ ..])) = (parts.next(), parts.next()) else {
        bail!("no two sides");
    };
    match left {
        [b'D', b'E', b'F', b'N', b' ', head @ ..] => define(alloc, made, head, right),
        [b'S', b'E', b'T', b' ', symbol @ ..] => set(alloc, &mut made.sheet, symbol, right),
        [b'W', b'O', b'R', b'T', b'H', b' ', turns @ ..] => {
            let turns = str::from_utf8(turns)?.parse::<u64>()?;
            worth_text(alloc, made, turns, right)
        }
        [b'T', b'E', b'R', b'M'] => term(alloc, made, right),
        _ => bail!("a line that asks nothing"),
    }
}

/// Puts the answers to lines, one behind the other.
pub(crate) fn put_answers(alloc: Global, text: &mut Vec<u8>, input: &[u8]) -> Result<()> {
    let keys = Keys::of(input);
    let mut made = Made {
        pool: TermPool::new(alloc, keys),
        definitions: Definitions::new(alloc, keys),
        sheet: Sheet::new(alloc, keys),
    };
    let lines = input.strip_suffix(b"\n").unwrap_or(input);
    for line in lines.split(|byte| *byte == b'\n') {
        text.extend_from_slice(answer(alloc, &mut made, line)?.as_bytes())?;
        text.push(b'\n')?;
    }
    Ok(())
}
