// The code of units and of a deck.
use crate::instr::Instr;
use crate::slots::Slots;
use crate::tests::Test;
use edge_io::List;
use fort_syntax::{Dialect, Name};

/// A call: its number in its unit, the number of the unit that it is of, where there is one, and how
/// many actuals it has.
#[derive(Clone, Copy, Debug)]
pub struct CallCode {
    pub number: usize,
    pub callee: Option<usize>,
    pub actuals: usize,
}

/// The code of a statement: its card, and where its instructions stand among those of the unit,
/// from the first up to one behind the last.
#[derive(Clone, Copy, Debug)]
pub struct LineCode {
    pub card: u32,
    pub start: usize,
    pub stop: usize,
}

/// The code of a unit.
#[derive(Drop)]
pub struct UnitCode {
    pub name: Name,
    /// Whether it is a FUNCTION.
    pub is_function: bool,
    /// The slot of the value of a FUNCTION.
    pub value: usize,
    pub slots: Slots,
    /// For each COMMON entity of the unit its place among those of the deck.
    pub shared: List<usize>,
    pub tests: List<Test>,
    pub calls: List<CallCode>,
    pub targets: List<usize>,
    pub instrs: List<Instr>,
    /// The statements by their points.
    pub lines: List<LineCode>,
}

/// The code of a deck.
#[derive(Drop)]
pub struct Code {
    pub dialect: Dialect,
    /// The names of COMMON entities of all units, each once.
    pub commons: List<Name>,
    pub units: List<UnitCode>,
}
