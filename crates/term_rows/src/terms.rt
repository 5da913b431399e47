// The text of a term.
use anyhow::{Result, bail};
use formula::{Definitions, Func, Node, TermId, TermPool};
use std::alloc::Global;
use test_rows::put_word;

/// The most pieces of a term.
const ROUNDS: u32 = 1 << 20;

// Puts the name of a function.
fn put_function(text: &mut Vec<u8>, definitions: &Definitions, function: Func) -> Result<()> {
    match function {
        Func::BuiltIn(function) => put_word(text, function.name())?,
        Func::Defined(number) => {
            if number == 0 || number > definitions.count() {
                bail!("no such definition");
            }
            put_word(text, definitions.get(number).name.as_bytes())?;
        }
    }
    Ok(())
}

// Puts the front of a term, and what is left of it on the stack: terms, and none for a closing bracket.
fn put_node(
    alloc: Global,
    text: &mut Vec<u8>,
    definitions: &Definitions,
    node: &Node,
    stack: &mut Vec<Option<TermId>>,
) -> Result<()> {
    match node {
        Node::Num(number) => put_word(text, format!(in alloc; "{number}")?.as_bytes())?,
        Node::Truth(true) => put_word(text, b"T")?,
        Node::Truth(false) => put_word(text, b"F")?,
        Node::Symbol(word) => put_word(text, word.as_bytes())?,
        Node::Old(word) => {
            put_word(text, b"(OLD")?;
            put_word(text, word.as_bytes())?;
            text.push(b')')?;
        }
        Node::Apply(function, args) => {
            put_word(text, b"(")?;
            put_function(text, definitions, *function)?;
            stack.push(None)?;
            for id in args.as_slice().iter().rev() {
                stack.push(Some(*id))?;
            }
        }
    }
    Ok(())
}

/// The text of a term.
pub(crate) fn term_text(
    alloc: Global,
    pool: &TermPool,
    definitions: &Definitions,
    id: TermId,
) -> Result<String> {
    let mut text = Vec::new(alloc);
    let mut stack = vec![in alloc; Some(id)]?;
    for _ in 0..ROUNDS {
        let Some(next) = stack.pop() else {
            return Ok(String::from_utf8(text)?);
        };
        match next {
            Some(id) if id.index() < pool.count() => {
                put_node(alloc, &mut text, definitions, pool.node(id), &mut stack)?;
            }
            Some(_) => bail!("no such term"),
            None => text.push(b')')?,
        }
    }
    bail!("a term of too many pieces");
}
