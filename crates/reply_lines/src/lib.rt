//! The lines that the program writes in reply, beside the text of conditions and the line of a fault.
#![tactic(auto)]

mod lines;
mod putting;

pub use lines::{Sizes, accepted_line, made_line};
pub use putting::{put, put_number};
