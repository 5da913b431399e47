//! The end of a path: what is checked at the end of a unit, and at an ASSERT.
#![tactic(auto)]

mod arrivals;
mod clock;
mod falls;
mod find;
mod notes;

pub use arrivals::arrive;
pub use clock::{Clock, Last};
