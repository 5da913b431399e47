//! The weights of the conditions along a path, as far as the cap, told as a walk over loads.
#![tactic(auto)]

mod laws;

pub use laws::tallies_are_weights;
