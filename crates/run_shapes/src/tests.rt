// Tests of DOs.
use crate::slots::Amount;

/// A DO that is tested behind its last statement: its point, the slot of its variable, its last
/// value, and its step, where it has one.
#[derive(Clone, Copy, Debug)]
pub struct Round {
    pub at: usize,
    pub variable: usize,
    pub last: Amount,
    pub step: Option<Amount>,
}

/// An entry of a table of tests.
#[derive(Clone, Copy, Debug)]
pub enum Test {
    /// A DO is tested, and where it is left the next entry follows.
    Loop(Round),
    /// All are left, and the flow goes on at a point.
    Out(usize),
}
