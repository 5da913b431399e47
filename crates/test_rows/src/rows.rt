// All rows of all files.
use crate::reading::read_rows;
use crate::report::print_report;
use crate::{Answer, Row};
use anyhow::Result;
use std::alloc::Global;
use std::env;

/// What rows are asked of.
pub trait Subject {
    /// Its answer to a row's words and text.
    fn answer(&self, alloc: Global, words: &[String], input: &[u8]) -> Result<Answer>;
}

// Asks a row. Prints it where the answer differs, and answers whether it does.
fn differs<S: Subject>(rt: &HostRuntime, subject: &S, row: &Row) -> Result<bool> {
    let answer = subject.answer(rt.alloc(), &row.words, &row.input)?;
    if answer.is_same(&row.wanted) {
        return Ok(false);
    }
    print_report(rt, row, &answer)?;
    Ok(true)
}

/// Asks the rows of the files that the words behind the program's name name, prints each that differs, and last how
/// many rows there were and how many of them differ.
pub fn try_rows<S: Subject>(rt: &HostRuntime, subject: &S) -> Result<()> {
    let mut count = 0u64;
    let mut differ = 0u64;
    for file in env::args(rt)?.skip(1) {
        for row in read_rows(rt, &file)?.iter() {
            count = count.saturating_add(1);
            if differs(rt, subject, row)? {
                differ = differ.saturating_add(1);
            }
        }
    }
    println!(rt; "{count} rows, {differ} differ")?;
    Ok(())
}
