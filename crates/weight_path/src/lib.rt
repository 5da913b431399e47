//! The parts of a path by their weights, as far as the cap: how it begins, its statements, how it ends.
#![tactic(auto)]

mod arrivals;
mod choices;
mod notes;
mod starts;
mod statements;
mod terms;

pub use arrivals::arrive;
pub use choices::begun_at;
pub use notes::assert_of;
pub use starts::{begin_at_assert, begin_at_entry};
pub use statements::perform_at;
