//! Where the statements of a unit lead, and the DOs that are tested behind them.
#![tactic(auto)]

mod flow;
mod loops;
mod standing;

pub use flow::UnitFlow;
pub use loops::{DoTest, NextTest, next_test};
pub use standing::Standing;
