//! Laws of steps and of fuel: what a run comes to with other stocks of steps.
#![tactic(auto)]

mod steps;

pub use steps::{
    fewer_steps_are_not_enough, fuel_does_not_matter, more_steps_change_nothing, runs_unfold,
};
