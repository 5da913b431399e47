// What sets and tables are searched by.
ghost use Rattle.std.specs.Prelude.{◌≡◌};
ghost use Rattle.fort_syntax.specs.Units.{name_of_block, block_of_name};

use fort_syntax::{BlockName, Name};
use std::hash::{Hash, Hasher};
use std::marker::Model;

/// A name, or the name without letters, which blank COMMON has. Contracts see it as the list of its letters.
#[derive(Drop)]
pub struct Key {
    name: Option<Name>,
}

fn named(name: &Name) -> BlockName
    ensures { result ≡ block_of_name name.now }
{
    if name.as_bytes().is_empty() {
        BlockName::Slashes
    } else {
        BlockName::Named(*name)
    }
}

impl Model for Key {
    ghost use Rattle.std.specs.Prelude.{List, ℕ};
    ghost use Rattle.name_tables.specs.Keys.{key_name};

    ghost Value = { List ℕ };

    ghost view = { λ k. key_name k.name };
}

impl Key {
    /// The key of a name.
    pub fn new(name: Name) -> Key
        ensures { result ≡ name }
    {
        Key { name: Some(name) }
    }

    /// The key of a block; that of blank COMMON has no letters.
    pub fn of_block(block: &BlockName) -> Key
        ensures { result ≡ name_of_block block.now }
    {
        match block {
            BlockName::Bare | BlockName::Slashes => Key { name: None },
            BlockName::Named(name) => Key { name: Some(*name) },
        }
    }

    /// The block of this name, blank COMMON as `Slashes`.
    pub fn block(&self) -> BlockName
        ensures { result ≡ block_of_name self.now }
    {
        match &self.name {
            None => BlockName::Slashes,
            Some(name) => named(name),
        }
    }

    fn as_bytes(&self) -> &[u8]
        ensures { result.now ≡ self.now }
    {
        match &self.name {
            None => &[],
            Some(name) => name.as_bytes(),
        }
    }
}

impl PartialEq for Key {
    ghost use Rattle.std.specs.Prelude.{nat_eq};
    ghost use Rattle.std.specs.Cmp.{partial_equiv_from_equiv};
    ghost use Rattle.std.specs.Cmp.Lexicographic.{pointwise, nat_list_eq_equiv};

    ghost eq = { pointwise nat_eq };

    ghost laws = { partial_equiv_from_equiv nat_list_eq_equiv };

    fn eq(&self, other: &Key) -> bool {
        self.as_bytes() == other.as_bytes()
    }
}

impl Eq for Key {
    ghost use Rattle.std.specs.Cmp.Lexicographic.{nat_list_eq_equiv};

    ghost laws = { nat_list_eq_equiv };
}

impl Hash for Key {
    ghost use Rattle.std.specs.Hash as fed;
    ghost use Rattle.std.specs.Hash.{same_Alike};
    ghost use Rattle.std.specs.Cmp.Lexicographic.{bytes_decides};

    ghost hash_input = { fed.str };

    ghost respects_eq = { (same_Alike fed.str bytes_decides).fed };

    fn hash<H: Hasher>(&self, state: &mut H) {
        state.write(self.as_bytes());
        state.write_u8(255);
    }
}
