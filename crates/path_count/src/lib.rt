//! How many paths a unit has, as far as a limit.
#![tactic(auto)]

mod counting;
mod laws;

pub use counting::count_paths;
pub use laws::paths_are_counted;
