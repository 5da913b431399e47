//! Declarations and COMMON blocks of the units of a deck: the first fault of a deck by the rules on declarations.
#![tactic(auto)]

mod common_rules;
mod common_table;
mod deck_names;
mod dims;
mod done;
mod name_rules;

pub use common_rules::dummies_of;
pub use common_table::{CommonTable, commons_of};
pub use deck_names::deck_name_fault;
pub use dims::is_bad_shape;
pub use done::commons_by;
