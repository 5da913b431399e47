// Conditions as plain data.
use crate::{Condition, Plain};
use edge_io::NoMemory;
use std::alloc::Global;

impl Plain for Condition {
    fn copied(&self, alloc: Global) -> Result<Condition, NoMemory> {
        Ok(Condition {
            unit: self.unit,
            path: self.path,
            check: self.check,
            kind: self.kind,
            card: self.card,
            hyps: self.hyps.copied(alloc)?,
            goal: self.goal,
        })
    }

    fn is_same(&self, other: &Condition) -> bool {
        self.unit == other.unit
            && self.path == other.path
            && self.check == other.check
            && self.kind == other.kind
            && self.card == other.card
            && self.goal == other.goal
            && self.hyps.is_same(&other.hyps)
    }
}
