// What is known of the calls of a deck.
use edge_io::{List, NoMemory};
use fort_syntax::{Name, Plain};
use std::alloc::Global;

/// Facts of the calls of a deck, whose units are counted from 0.
#[derive(Debug, Drop)]
pub struct CallFacts {
    /// All units, each behind those that it calls; of two that could stand next the earlier one.
    pub order: List<u32>,
    /// For each unit the names that it smashes, in the order of its data names.
    pub smashes: List<List<Name>>,
    /// For each unit the numbers of the units that its calls are of, in the order of the text.
    pub callees: List<List<u32>>,
}

impl Plain for CallFacts {
    fn copied(&self, alloc: Global) -> Result<CallFacts, NoMemory> {
        Ok(CallFacts {
            order: self.order.copied(alloc)?,
            smashes: self.smashes.copied(alloc)?,
            callees: self.callees.copied(alloc)?,
        })
    }

    fn is_same(&self, other: &CallFacts) -> bool {
        self.order.is_same(&other.order)
            && self.smashes.is_same(&other.smashes)
            && self.callees.is_same(&other.callees)
    }
}
