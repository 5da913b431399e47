//! What the names of a called unit stand for: at its entry, and behind it.
#![tactic(auto)]

mod filling;
mod frame;
mod laws;
mod own;

pub use frame::{Frame, enter, leave};
pub use laws::{frames_tell_notes, told_by_calls};
