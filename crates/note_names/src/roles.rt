// The data names of a unit with their roles.
ghost use Rattle.std.specs.Prelude.{◌≡◌, [], IfOk, OnOk, option_copied};
ghost use Rattle.note_names.specs.NameTests.{role_in, Tells, AreRolesOf, AreRolesIn};

use edge_io::{Keys, NoMemory};
use formula::Word;
use fort_syntax::{DataName, Role, Unit, word_of};
use indexmap::IndexMap;
use std::alloc::Global;
use std::marker::Model;

/// Names with their roles, each name once, which contracts see as the list of the pairs.
#[derive(Drop)]
pub struct Roles {
    map: IndexMap<Word, Role, Keys>,
}

impl Model for Roles {
    ghost use Rattle.std.specs.Prelude.{List, ℕ};
    ghost use Rattle.fort_syntax.specs.declared.unit.Role.{Role};

    ghost Value = { List (List ℕ × Role) };

    ghost view = { λ t. t.map.entries };
}

impl Roles {
    /// No name. It takes no memory. No answer depends on the keys.
    pub fn new(alloc: Global, keys: Keys) -> Roles
        ensures { result ≡ [] }
    {
        Roles {
            map: IndexMap::with_hasher(alloc, keys),
        }
    }

    // Gives a name a role, in the stead of the one that it had.
    fn put(&mut self, name: Word, role: Role) -> Result<(), NoMemory>
        ensures { OnOk result (Tells self.old self.new name role) }
    {
        match self.map.insert(name, role) {
            Ok(_) => Ok(()),
            Err(_) => Err(NoMemory),
        }
    }

    // The roles of data names; where a name stands twice, the first counts.
    fn of_names(alloc: Global, keys: Keys, names: &[DataName]) -> Result<Roles, NoMemory>
        ensures { IfOk result (AreRolesIn names.now) }
    {
        let mut roles = Roles::new(alloc, keys);
        let mut left = names.len();
        while left > 0 {
            left -= 1;
            let d = &names[left];
            roles.put(word_of(&d.name), d.role)?;
        }
        Ok(roles)
    }

    /// The roles of the data names of a unit, in time for them; without a unit there is none.
    pub fn of_unit(alloc: Global, keys: Keys, unit: Option<&Unit>) -> Result<Roles, NoMemory>
        ensures { IfOk result (AreRolesOf (option_copied unit.entry)) }
    {
        match unit {
            Some(u) => Roles::of_names(alloc, keys, u.names.as_slice()),
            None => Ok(Roles::new(alloc, keys)),
        }
    }

    /// The role of a name, where it has one.
    pub fn role(&self, name: Word) -> Option<Role>
        ensures { result ≡ role_in self.now name }
    {
        self.map.get(&name).copied()
    }
}
