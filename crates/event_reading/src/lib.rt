//! The text of conditions, read back.
#![tactic(auto)]

mod bracket;
mod comparing;
mod condition;
mod definition;
mod events;
mod known;
mod lack;
mod prover;
mod reading;
mod shapes;
mod term;
mod tokens;
mod writing;

pub use events::{EventFault, Events};
pub use reading::read_events;
