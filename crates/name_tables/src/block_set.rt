// A set of COMMON blocks.
ghost use Rattle.std.specs.Prelude.{◌≡◌, [], not, IfOk, OnOk};
ghost use Rattle.formula.specs.Atoms.{is_among};
ghost use Rattle.fort_syntax.specs.Units.{name_of_block};
ghost use Rattle.name_tables.specs.Sets.{with_name};

use crate::key::Key;
use edge_io::{Keys, NoMemory};
use fort_syntax::BlockName;
use indexmap::IndexSet;
use std::alloc::Global;
use std::marker::Model;

/// COMMON blocks, which contracts see as the list of their names in the order in which they came, each once. That of
/// blank COMMON has no letters.
#[derive(Drop)]
pub struct BlockSet {
    set: IndexSet<Key, Keys>,
}

impl Model for BlockSet {
    ghost use Rattle.std.specs.Prelude.{List, ℕ};

    ghost Value = { List (List ℕ) };

    ghost view = { λ s. s.set.keys };
}

impl BlockSet {
    /// No blocks. It takes no memory. No answer depends on the keys.
    pub fn new(alloc: Global, keys: Keys) -> BlockSet
        ensures { result ≡ [] }
    {
        BlockSet {
            set: IndexSet::with_hasher(alloc, keys),
        }
    }

    /// The names of the blocks in the order in which they came.
    pub fn keys(&self) -> &[Key]
        ensures { result.now ≡ self.now }
    {
        self.set.as_slice()
    }

    /// Whether a block of this name is in the set.
    pub fn has(&self, block: &BlockName) -> bool
        ensures { result ≡ is_among (name_of_block block.now) self.now }
    {
        self.set.contains(&Key::of_block(block))
    }

    /// Adds a block: whether it was not there. At `NoMemory` the set is as before.
    pub fn add(&mut self, block: &BlockName) -> Result<bool, NoMemory>
        ensures new { IfOk result (λ new. new ≡ not (is_among (name_of_block block.now) self.old)) }
        ensures after { OnOk result (self.new ≡ with_name self.old (name_of_block block.now)) }
    {
        match self.set.insert(Key::of_block(block)) {
            Ok(new) => Ok(new),
            Err(_) => Err(NoMemory),
        }
    }
}
