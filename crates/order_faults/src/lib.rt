//! The order of statements, and block IFs: where each unit ends, and the first fault of a deck by the rules on them.
#![tactic(auto)]

mod blocks;
mod deck_order;
mod order;
mod splitting;

pub use blocks::block_fault;
pub use deck_order::{deck_block_fault, deck_order_fault};
pub use order::order_fault;
pub use splitting::{first_unit, unit_size};
