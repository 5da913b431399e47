//! Room for a run, by the order of calls: where it is taken at the beginning, no work takes memory.
#![tactic(auto)]

mod fitting;
mod laws;
mod owns;
mod ranking;
mod ranks;
mod wants;

pub use fitting::{callers_stand_later, names_are_apart, orders_hold_code, tables_name_units};
pub use laws::{
    calls_are_ready, calls_keep_room, entries_are_ready, entries_keep_room, leaves_are_ready,
    leaves_keep_room, lines_keep_room, plain_is_ready, plain_keeps_room, tests_keep_room,
};
pub use ranks::{Ranks, UnitRank};
