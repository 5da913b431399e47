//! The sizes of a program against its limits.
#![tactic(auto)]

mod counts;
mod measuring;
mod totals;
mod units;
mod weighing;
mod whole;

pub use counts::Counts;
pub use measuring::measure;
