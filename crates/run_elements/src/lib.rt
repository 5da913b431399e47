//! What instructions of expressions do to the state of a run.
#![tactic(auto)]

mod answers;
mod changes;
mod intrinsics;
mod reading;
mod works;

pub use answers::{answer_of, answered};
pub use changes::{assign, forget, place, skip_false, skip_true};
pub use reading::{read, value_at, value_in};
pub use works::{does, elements_are_obeyed};
