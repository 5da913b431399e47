//! The tests of the DOs of a unit: one table, in which each statement finds those that it ends.
#![tactic(auto)]

mod rounds;
mod table;
mod ways;

pub use rounds::{amount, push_test};
pub use table::TestTable;
pub use ways::{Ways, tests_of_unit};
