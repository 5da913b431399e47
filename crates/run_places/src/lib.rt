//! Elements of arrays in a run.
#![tactic(auto)]

mod arrays;
mod places;

pub use arrays::{arrays_are_obeyed, element};
