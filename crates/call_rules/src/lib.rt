//! The rules on calls: which units there are, what they call, and whether they call themselves.
#![tactic(auto)]

mod heads;
mod scanning;
mod stage;
mod statements;
mod unit_set;

pub use call_order::Ordered;
pub use stage::call_stage;
