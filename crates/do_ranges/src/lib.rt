//! The ranges of DOs and the blocks of block IFs, and the rules on them and on clocks.
#![tactic(auto)]

mod clocks;
mod crossing;
mod ends;
mod jumps;
mod known;
mod lasts;
mod stage;

pub use stage::check_ranges;
