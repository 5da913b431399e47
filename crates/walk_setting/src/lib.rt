//! Where a walk along a path is: in which program, as its walks see it, in which unit, and at which
//! card.
#![tactic(auto)]

mod card;
mod setting;

pub use card::Card;
pub use setting::Setting;
