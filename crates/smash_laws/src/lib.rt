//! Laws of smashed names: the table that is made unit after unit, in the order of calls, is the table of a deck.
#![tactic(auto)]

mod tables;

pub use tables::{one_smash_table, tables_by_order};
