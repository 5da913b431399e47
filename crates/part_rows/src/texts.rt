// Statements by their texts.
use crate::prefix::put_prefix;
use anyhow::{Result, bail};
use fort_syntax::{Dialect, Rule};
use std::alloc::{AllocError, Global};
use stmt_parse::{StmtRefusal, statement, written};

/// Puts the name of a rule, and for Excluded its word.
pub(crate) fn put_rule(text: &mut Vec<u8>, rule: Rule) -> Result<(), AllocError> {
    text.extend_from_slice(rule.name())?;
    if let Rule::Excluded(word) = rule {
        text.push(b' ')?;
        text.extend_from_slice(word.as_bytes())?;
    }
    Ok(())
}

// Puts what a text spells.
fn put_statement(alloc: Global, text: &mut Vec<u8>, dialect: Dialect, line: &[u8]) -> Result<()> {
    match statement(alloc, dialect, line) {
        Ok(stmt) => {
            put_prefix(alloc, text, &stmt)?;
            let Ok(back) = written(alloc, dialect, &stmt) else {
                bail!("not written");
            };
            if back.as_slice() != line {
                text.extend_from_slice(b" by ")?;
                text.extend_from_slice(back.as_slice())?;
            }
        }
        Err(StmtRefusal::Breaks(rule)) => put_rule(text, rule)?,
        Err(StmtRefusal::NoMemory) => bail!("no memory"),
    }
    text.push(b'\n')?;
    Ok(())
}

/// Puts what each line spells.
pub(crate) fn put_statements(
    alloc: Global,
    text: &mut Vec<u8>,
    dialect: Dialect,
    input: &[u8],
) -> Result<()> {
    let lines = input.strip_suffix(b"\n").unwrap_or(input);
    for line in lines.split(|byte| *byte == b'\n') {
        put_statement(alloc, text, dialect, line)?;
    }
    Ok(())
}
