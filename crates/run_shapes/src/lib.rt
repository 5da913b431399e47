//! The code of a deck: names are slots, labels are points, and each unit has one list of instructions.
#![tactic(auto)]

mod instr;
mod slots;
mod tests;
mod unit_code;

pub use instr::{Function, Instr};
pub use slots::{Amount, Shape, Slots};
pub use tests::{Round, Test};
pub use unit_code::{CallCode, Code, LineCode, UnitCode};
