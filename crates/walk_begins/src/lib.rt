//! How DOs begin along a path.
#![tactic(auto)]

mod begins;
mod entering;
mod limits;

pub use begins::{DoHead, begin_do};
