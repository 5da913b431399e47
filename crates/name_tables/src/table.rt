// Tables that keep what was told of a name first.
ghost use Rattle.std.specs.Prelude.{◌≡◌, [], option_copied, IfOk, OnOk};
ghost use Rattle.fort_syntax.specs.Units.{name_of_block};
ghost use Rattle.name_tables.specs.Tables.{first_of, told};

use crate::key::Key;
use edge_io::{Keys, NoMemory};
use fort_syntax::{BlockName, Name};
use indexmap::IndexMap;
use std::alloc::Global;
use std::marker::Model;

/// What was told of names first, which contracts see as the list of the names and of that, in order.
#[derive(Drop)]
pub struct Table<V> {
    map: IndexMap<Key, V, Keys>,
}

impl<V> Model for Table<V> {
    ghost use Rattle.std.specs.Prelude.{List, ℕ};
    ghost use Rattle.std.specs.Coded.{coded_list, coded×, coded_ℕ};

    ghost Value = { List (List ℕ × V) };

    ghost coded = { coded_list (coded× (coded_list coded_ℕ) V.code) };

    ghost view = { λ t. t.map.entries };
}

impl<V: Drop> Table<V> {
    /// A table of nothing. It takes no memory. No answer depends on the keys.
    pub fn new(alloc: Global, keys: Keys) -> Table<V>
        ensures { result ≡ [] }
    {
        Table {
            map: IndexMap::with_hasher(alloc, keys),
        }
    }

    /// What was told of a name first.
    pub fn get(&self, name: &Name) -> Option<&V>
        ensures { option_copied result ≡ first_of self.now name.now }
    {
        self.map.get(&Key::new(*name))
    }

    /// What was told of a block first.
    pub fn get_block(&self, block: &BlockName) -> Option<&V>
        ensures { option_copied result ≡ first_of self.now (name_of_block block.now) }
    {
        self.map.get(&Key::of_block(block))
    }

    #[tactic(auto, using(crate::proofs::Told::fresh))]
    fn tell_key(&mut self, key: Key, value: V) -> Result<(), NoMemory>
        ensures { OnOk result (self.new ≡ told self.old key value) }
    {
        if self.map.get(&key).is_some() {
            return Ok(());
        }
        match self.map.insert(key, value) {
            Ok(_) => Ok(()),
            Err(_) => Err(NoMemory),
        }
    }

    /// Tells the table something of a name: it counts where nothing was told of the name before. At
    /// `NoMemory` it is as before.
    pub fn tell(&mut self, name: Name, value: V) -> Result<(), NoMemory>
        ensures { OnOk result (self.new ≡ told self.old name value) }
    {
        self.tell_key(Key::new(name), value)
    }

    /// Tells the table something of a block.
    pub fn tell_block(&mut self, block: &BlockName, value: V) -> Result<(), NoMemory>
        ensures { OnOk result (self.new ≡ told self.old (name_of_block block.now) value) }
    {
        self.tell_key(Key::of_block(block), value)
    }
}
