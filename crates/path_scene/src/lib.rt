//! What the walks along the paths of a program see of it.
#![tactic(auto)]

mod laws;
mod scene;

pub use laws::{ready_stay, scenes_stay};
pub use scene::Scene;
