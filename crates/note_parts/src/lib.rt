//! The parts of notes: words, numbers, cells, terms, and lists of parts.
#![tactic(auto)]

mod data;
mod lack;
mod lists;
mod numbers;
mod term_lists;
mod terms;
mod tokens;
mod words;

pub use lack::Lack;
pub use lists::{Part, inside_brackets, to_end};
pub use numbers::{cell, count, either, number, number_between};
pub use term_lists::{Until, some_terms, term_list};
pub use terms::{plain_term, term};
pub use tokens::{
    begins_closing, begins_opening, begins_word, closing, is_over, opening, sign_word, word,
};
pub use words::{entity, function_name, is_name, parameter, symbol, unit_name};
