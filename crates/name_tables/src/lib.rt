//! Tables and sets of names and of COMMON blocks, and sets of labels. Their hashes have keys, so that nobody
//! can choose names in an input that share a place.
#![tactic(auto)]

mod block_set;
mod key;
mod label_set;
mod name_set;
mod table;

pub use block_set::BlockSet;
pub use key::Key;
pub use label_set::LabelSet;
pub use name_set::NameSet;
pub use table::Table;
