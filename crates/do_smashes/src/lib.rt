//! Rule 29: a statement in the range of a DO smashes no name of that DO, and no DO has its own variable as a parameter.
#![tactic(auto)]

mod calls;
mod guards;
mod loops;
mod statements;
mod unit;

pub use unit::smashed_in_do;
