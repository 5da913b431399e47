//! The names in a statement: its dummies, items and COMMON groups, how names stand in it, and what a name is by its letters.
#![tactic(auto)]

mod heads;
mod items;
mod names;
mod seen;
mod uses;

pub use heads::{dummies_by, groups_by, is_function, own_name};
pub use items::{dimensioned, is_given, items_by, names_of};
pub use names::{is_intrinsic_name, sort_by_letter, takes_so_many};
pub use seen::{How, Seen};
pub use uses::{names_of_stmt, uses_of};
