//! The graph of a unit's flow with ranks, or the first statement on a cycle without a cut point.
#![tactic(auto)]

mod graphs;

pub use graphs::{Routes, routes_of};
