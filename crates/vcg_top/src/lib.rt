//! The top call of `vcg`.
#![tactic(auto)]

mod answering;
mod call;
mod command;
mod reading;
mod replies;
mod status;
mod words;
mod writing;

pub use call::vcg;
pub use command::{Command, Task};
pub use status::Status;
