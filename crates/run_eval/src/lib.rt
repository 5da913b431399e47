//! The runs of a deck: begun by RUN cards, and performed.
#![tactic(auto)]

mod entries;
mod runs;
mod settings;

pub use entries::Entry;
pub use runs::{Run, begun, performed};
pub use settings::setting_of;
