//! Sizes of arrays, places of elements and sorts of names, as terms along a path.
#![tactic(auto)]

mod dims;
mod elements;
mod sizes;
mod sorts;

pub use dims::{dim_term, stretch};
pub use elements::{place, subscript_fits};
pub use sizes::{blank, fixed_size, size};
pub use sorts::{Shape, sort_by, sort_in};
