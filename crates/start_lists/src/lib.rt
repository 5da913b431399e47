//! Names of a unit in the order in which the start of a path tells of them: dimensions, COMMON
//! entities, smashed names.
#![tactic(auto)]

mod commons;
mod dims;
mod smashed;

pub use commons::commons_of;
pub use dims::dim_dummies;
pub use smashed::smashed_in_order;
