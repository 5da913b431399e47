//! What a CALL or a reference meets along a path: the INPUT and OUTPUT of the called unit, the
//! symbols of its answer, and their types.
#![tactic(auto)]

mod answers;
mod notes;
mod sorts;

pub use answers::{smash, take_result};
pub use notes::{check_input, take_output};
pub use sorts::take_sorts;
