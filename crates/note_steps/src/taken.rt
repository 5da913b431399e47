// What is gathered of the notes that were judged.
ghost use Rattle.std.specs.Prelude.{[]};
ghost use Rattle.note_steps.specs.Steps.{Knows};

use edge_io::Keys;
use formula::NameTable;
use note_places::UnitSet;
use std::alloc::Global;

/// What is gathered of the notes that were judged: whether a BOUND was among them, the units with an
/// INPUT and those with an OUTPUT, and the conditions that have certificates.
#[derive(Drop)]
pub struct Taken {
    pub bounded: bool,
    pub inputs: UnitSet,
    pub outputs: UnitSet,
    pub lemmas: NameTable,
}

impl Taken {
    /// Nothing. It takes no memory. No answer depends on the keys.
    pub fn new(alloc: Global, keys: Keys) -> Taken
        ensures { Knows result [] [] }
    {
        Taken {
            bounded: false,
            inputs: UnitSet::new(alloc, keys),
            outputs: UnitSet::new(alloc, keys),
            lemmas: NameTable::new(alloc, keys),
        }
    }
}
