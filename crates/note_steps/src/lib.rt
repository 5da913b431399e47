//! The judgement of one note by what is known of the earlier ones.
#![tactic(auto)]

mod defining;
mod laws;
mod placing;
mod refused;
mod sites;
mod stepping;
mod taken;

pub use laws::notes_are_judged;
pub use refused::Refused;
pub use sites::Sites;
pub use stepping::judged;
pub use taken::Taken;
