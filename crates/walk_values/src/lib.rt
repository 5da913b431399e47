//! Values along a path: what is read, computed and checked.
#![tactic(auto)]

mod checks;
mod operations;
mod powers;

pub use checks::{constant, divisor, ranged, read};
pub use operations::operate;
pub use powers::power;
