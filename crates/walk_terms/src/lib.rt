//! The terms that walks along paths are told in.
#![tactic(auto)]

mod cells;
mod integers;
mod plain_terms;
mod relations;
mod symbols;
mod words;

pub use cells::{cell_sort, cells_sort};
pub use integers::{
    between, greatest_integer, in_range, least_integer, natural, negative, not_negative,
};
pub use plain_terms::{
    all_three, both, choice, defined, element, negated, not_zero, put, undefined,
};
pub use relations::{operation, relation};
pub use symbols::{call_symbol, entry_symbol, start_symbol};
