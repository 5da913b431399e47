//! Rows of test data: questions, each with the answer that is wanted. A program of rows says what its answer is.
//!
//! A row begins with the line `row NAME STATUS WORD WORD ..`, with a blank between two of its parts. Behind it come the
//! lines of its text, each behind `<`, and then the lines of the text that is wanted, each behind `>`; none is the empty
//! text. A `\` and two hexadecimal digits spell a byte: each one but blank to `~`, and `\` itself, has to be spelled so.
//! A `\` at the end of a line says that no line's end follows: the next line goes on, or the text ends. A word that is
//! `\` is empty. Empty lines, and those that begin with `#`, mean nothing.
#![tactic(auto)]

mod reading;
mod report;
mod row;
mod rows;
mod spelling;
mod words;

pub use row::{Answer, Row};
pub use rows::{Subject, try_rows};
pub use words::put_word;
