// All notes.
ghost use Rattle.std.specs.Prelude.{◌≡◌, List, IfOk};
ghost use Rattle.formula.specs.declared.node.Node.{Node};
ghost use Rattle.fort_notes.specs.Remarks.{first_or, remarks_by};
ghost use Rattle.note_judging.specs.Items.{AreNotedIn, definitions_among, judged_trees};
ghost use Rattle.note_units.specs.Sorting.{AreEmpty, AreIn, remarks_tree};

use crate::placing::put;
use crate::sorted::Sorted;
use edge_io::{List, NoMemory};
use fort_notes::{Specs, UnitSpec};
use fort_syntax::Unit;
use note_judging::Noted;
use std::alloc::Global;

// So many units without notes.
fn empty(alloc: Global, count: usize) -> Result<Sorted, NoMemory>
    ensures { IfOk result (AreEmpty count) }
{
    let mut units = Vec::with_capacity(alloc, count)?;
    for _ in 0..count {
        let none = UnitSpec {
            input: List::from_vec(Vec::new(alloc)),
            output: List::from_vec(Vec::new(alloc)),
            asserts: List::from_vec(Vec::new(alloc)),
        };
        let Ok(()) = units.push(none) else {
            return Err(NoMemory);
        };
    }
    Ok(Sorted {
        bounds: Vec::new(alloc),
        units,
        runs: Vec::new(alloc),
        tries: Vec::new(alloc),
        proofs: Vec::new(alloc),
    })
}

// The first of some bounds; without one it is the greatest integer of 16 bits.
fn first_bound(bounds: &[u64]) -> u64
    ensures { result ≡ first_or 32767 bounds.now }
{
    match bounds.first() {
        Some(bound) => *bound,
        None => 32767,
    }
}

// What stands where it belongs, as specs.
fn specs(sorted: Sorted) -> Specs
    ensures { result ≡ record {
      bound = first_or 32767 sorted.bounds.items;
      units =
          sorted.units.items;
      runs = sorted.runs.items;
      tries = sorted.tries.items;
      proofs =
          sorted.proofs.items;
    } }
{
    let Sorted {
        bounds,
        units,
        runs,
        tries,
        proofs,
    } = sorted;
    Specs {
        bound: first_bound(bounds.as_slice()),
        units: List::from_vec(units),
        runs: List::from_vec(runs),
        tries: List::from_vec(tries),
        proofs: List::from_vec(proofs),
    }
}

/// What the judged notes of a deck with these units become: the bound, the notes of each unit, and
/// the cards of RUN, TRY and PROOF, each in the order of the notes. It takes time and memory in the
/// number of notes and of units, and nothing is copied.
pub fn specs_of(alloc: Global, units: &[Unit], noted: Vec<Noted>) -> Result<Specs, NoMemory>
    ensures says { IfOk result (λ s. (pool : List Node) → remarks_by units.now
        (judged_trees pool noted.items) ≡ remarks_tree pool (definitions_among noted.items) s) }
    ensures inside { IfOk result (λ s. (pool : List Node) → AreNotedIn pool noted.items
        → AreIn pool s.units s.proofs) }
{
    let Ok(mut sorted) = empty(alloc, units.len()) else {
        return Err(NoMemory);
    };
    for note in noted {
        let Ok(()) = put(alloc, &mut sorted, note) else {
            return Err(NoMemory);
        };
    }
    Ok(specs(sorted))
}
