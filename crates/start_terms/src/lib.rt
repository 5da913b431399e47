//! What names stand for where a path starts, and what is taken of dimensions.
#![tactic(auto)]

mod dims;
mod laws;
mod starts;

pub use dims::dim_terms;
pub use laws::{dim_facts_are_those_of_walks, started_are_at_start};
pub use starts::start_names;
