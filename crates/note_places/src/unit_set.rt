// A set of units.
ghost use Rattle.std.specs.Prelude.{◌≡◌, ◌&&◌, ◌||◌, ℕ, [], IfOk, OnOk, OnErr, nat_eq};
ghost use Rattle.fort_notes.specs.Judging as judging;
ghost use Rattle.note_places.specs.Places.{is_known, AreUnitsWith};

use crate::first_words::{begins_with_input, begins_with_output};
use edge_io::{Keys, NoMemory};
use fort_syntax::Placed;
use indexmap::IndexSet;
use std::alloc::Global;
use std::marker::Model;

/// Numbers of units, which contracts see as the list of them in the order in which they came, each
/// once.
#[derive(Drop)]
pub struct UnitSet {
    set: IndexSet<usize, Keys>,
}

impl Model for UnitSet {
    ghost use Rattle.std.specs.Prelude.{List, ℕ};

    ghost Value = { List ℕ };

    ghost view = { λ s. s.set.keys };
}

impl UnitSet {
    /// No unit. It takes no memory. No answer depends on the keys.
    pub fn new(alloc: Global, keys: Keys) -> UnitSet
        ensures { result ≡ [] }
    {
        UnitSet {
            set: IndexSet::with_hasher(alloc, keys),
        }
    }

    /// Whether a unit is in the set.
    pub fn has(&self, unit: usize) -> bool
        ensures { result ≡ is_known unit self.now }
    {
        self.set.contains(&unit)
    }

    #[tactic(auto, using(crate::proofs::Sets::known_after))]
    /// Adds a unit. At `NoMemory` the set is as before.
    pub fn add(&mut self, unit: usize) -> Result<(), NoMemory>
        ensures added { OnOk result ((i : ℕ) → is_known i self.new ≡ (nat_eq i unit || is_known i self.old)) }
        ensures unchanged { OnErr result (self.new ≡ self.old) }
    {
        match self.set.insert(unit) {
            Ok(_) => Ok(()),
            Err(_) => Err(NoMemory),
        }
    }

    // The same, where it is to be added.
    fn add_where(&mut self, wanted: bool, unit: usize) -> Result<(), NoMemory>
        ensures { OnOk result ((i : ℕ) → is_known i self.new ≡ ((nat_eq i unit && wanted)
            || is_known i self.old)) }
    {
        if !wanted {
            return Ok(());
        }
        self.add(unit)
    }

    /// The units in which a note stands that begins with INPUT, in time for the notes.
    pub fn of_inputs(alloc: Global, keys: Keys, notes: &[Placed]) -> Result<UnitSet, NoMemory>
        ensures { IfOk result (AreUnitsWith judging.Input notes.now) }
    {
        let mut set = UnitSet::new(alloc, keys);
        let mut left = notes.len();
        while left > 0 {
            left -= 1;
            let note = &notes[left];
            let wanted = begins_with_input(note.text.as_slice());
            set.add_where(wanted, note.unit as usize)?;
        }
        Ok(set)
    }

    /// The units in which a note stands that begins with OUTPUT, in time for the notes.
    pub fn of_outputs(alloc: Global, keys: Keys, notes: &[Placed]) -> Result<UnitSet, NoMemory>
        ensures { IfOk result (AreUnitsWith judging.Output notes.now) }
    {
        let mut set = UnitSet::new(alloc, keys);
        let mut left = notes.len();
        while left > 0 {
            left -= 1;
            let note = &notes[left];
            let wanted = begins_with_output(note.text.as_slice());
            set.add_where(wanted, note.unit as usize)?;
        }
        Ok(set)
    }
}
