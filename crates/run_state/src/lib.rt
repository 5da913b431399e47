//! The state of a run, in numbers, and what it shows of where the run stands.
#![tactic(auto)]

mod deeds;
mod machine;
mod rows;

pub use deeds::{no_cells, no_item};
pub use machine::{Extent, Frame, Item, Setting, Stage, State};
pub use rows::Row;
