//! The names in notes: which a unit has, in what role, and which notes may not have them.
#![tactic(auto)]

mod clock_words;
mod name_test;
mod roles;
mod rules;
mod walk;

pub use clock_words::clocks;
pub use name_test::NameTest;
pub use roles::Roles;
pub use rules::{
    assertion_broken, body_has_no_old, input_broken, output_broken, steps_have_no_old,
};
