//! The start of a run: what is refused, and the first state.
#![tactic(auto)]

mod case;
mod counts;
mod entries;
mod filling;
mod judging;
mod places;
mod refusal;
mod runnable;
mod shaping;
mod start_rows;
mod starting;
mod starts;
mod states;
mod tables;
mod words;

pub use refusal::RunRefusal;
pub use runnable::Runnable;
pub use start_rows::{cells_are_counted, dimensions_are_given, names_are_known, shapes_are_judged};
pub use starting::start;
pub use starts::Starts;
