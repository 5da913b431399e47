//! What a well-formed unit gives its code: each name has a slot, and each call stands at its place.
#![tactic(auto)]

mod here;

pub use here::{names_have_slots, statements_are_here};
