//! The calls in the text of a unit, the unit that each of them is of, and whether its actuals match.
#![tactic(auto)]

mod book;
mod deck_book;
mod matching;
mod site;
mod sites;
mod telling;

pub use book::{Book, is_intrinsic};
pub use deck_book::DeckBook;
pub use matching::{lacks_block, mismatches};
pub use site::Site;
pub use sites::{sites_of_stmt, sites_of_unit};
pub use telling::add_blocks;
