//! The steps of a run.
#![tactic(auto)]

mod going;

pub use going::go;
