// The rows of a file.
use crate::spelling::put_bytes;
use crate::{Answer, Row};
use anyhow::{Result, bail, ensure};
use std::alloc::Global;
use std::fs;

// The word that a text spells.
fn word(alloc: Global, text: &[u8]) -> Result<String> {
    ensure!(!text.is_empty(), "two blanks, or one at the end");
    let mut bytes = Vec::new(alloc);
    put_bytes(&mut bytes, text, b"")?;
    Ok(String::from_utf8(bytes)?)
}

// The row that a line begins: `row`, its name, the status, and the words, with a blank between them.
fn head(alloc: Global, line: &[u8]) -> Result<Row> {
    let mut parts = line.split(|byte| *byte == b' ');
    let (Some(b"row"), Some(name), Some(status)) = (parts.next(), parts.next(), parts.next()) else {
        bail!("not a line of a row");
    };
    let mut words = Vec::new(alloc);
    for part in parts {
        words.push(word(alloc, part)?)?;
    }
    Ok(Row {
        name: word(alloc, name)?,
        words,
        input: Vec::new(alloc),
        wanted: Answer {
            status: word(alloc, status)?.as_str().parse::<u8>()?,
            text: Vec::new(alloc),
        },
    })
}

// Takes a line of a file.
fn take_line(alloc: Global, rows: &mut Vec<Row>, line: &[u8]) -> Result<()> {
    match line {
        [] | [b'#', ..] => {}
        [mark @ (b'<' | b'>'), text @ ..] => {
            let Some(row) = rows.last_mut() else {
                bail!("no row before it");
            };
            if *mark == b'>' {
                return put_bytes(&mut row.wanted.text, text, b"\n");
            }
            ensure!(row.wanted.text.is_empty(), "an input behind its text");
            return put_bytes(&mut row.input, text, b"\n");
        }
        _ => rows.push(head(alloc, line)?)?,
    }
    Ok(())
}

/// The rows of a file. It is an error where the file is not to be had, is none of rows, or has no row.
pub(crate) fn read_rows(rt: &HostRuntime, file: &str) -> Result<Vec<Row>> {
    let alloc = rt.alloc();
    let bytes = match fs::read(rt, file) {
        Ok(bytes) => bytes,
        Err(why) => bail!("{file}: {why}"),
    };
    let mut rows = Vec::new(alloc);
    let mut number = 0u64;
    for line in bytes.split(|byte| *byte == b'\n') {
        number = number.saturating_add(1);
        if let Err(why) = take_line(alloc, &mut rows, line) {
            bail!("{file}, line {number}: {why}");
        }
    }
    ensure!(!rows.is_empty(), "{file}: no row");
    Ok(rows)
}
