//! What the declarations of a unit say of names: their types and dimensions, and the members of its COMMON blocks.
#![tactic(auto)]

mod members;
mod scoped;

pub use members::{Kept, are_members, has_adjustable, members_of, same_sorts};
pub use scoped::{Scoped, scope_of};
