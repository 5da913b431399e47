//! Rules 26, 27, 28 and 36 in all units of a program: the ranges of DOs, blocks, jumps, and clocks.
#![tactic(auto)]

mod units;

pub use units::check_units;
