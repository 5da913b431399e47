// The names that DOs keep.
ghost use Rattle.std.specs.Prelude.{◌≡◌, ℕ, cond, List, [], ◌∷◌, OnOk};
ghost use Rattle.formula.specs.Atoms.{same_bytes};
ghost use Rattle.fort_model.specs.Ranges.{param_names, step_names};
ghost use Rattle.do_smashes.specs.Guards.{kept_to, is_kept, Keeps};

use edge_io::{Keys, NoMemory};
use fort_syntax::{Name, Param};
use indexmap::IndexMap;
use std::alloc::Global;
use std::marker::Model;

/// Names with the points up to which they are kept, each name once. Contracts see the list of the pairs.
#[derive(Drop)]
pub(crate) struct Guards {
    map: IndexMap<Name, usize, Keys>,
}

impl Model for Guards {
    ghost use Rattle.std.specs.Prelude.{List, ℕ};

    ghost Value = { List (List ℕ × ℕ) };

    ghost view = { λ g. g.map.entries };
}

impl Guards {
    /// No name is kept. It takes no memory.
    pub(crate) fn new(alloc: Global, keys: Keys) -> Guards
        ensures { result ≡ [] }
    {
        Guards {
            map: IndexMap::with_hasher(alloc, keys),
        }
    }

    /// The point up to which a name is kept.
    fn end(&self, name: &Name) -> usize
        ensures { result ≡ kept_to self.now name.now }
    {
        match self.map.get(name) {
            Some(end) => *end,
            None => 0,
        }
    }

    /// Whether a name is kept at a point.
    pub(crate) fn keeps(&self, at: usize, name: &Name) -> bool
        ensures { result ≡ is_kept self.now at name.now }
    {
        at < self.end(name)
    }

    /// Keeps a name up to a point, in the stead of the one that it had.
    fn put(&mut self, name: Name, end: usize) -> Result<(), NoMemory>
        ensures { OnOk result ((x : List ℕ) → kept_to self.new x ≡ cond (same_bytes name x) end
            (kept_to self.old x)) }
    {
        match self.map.insert(name, end) {
            Ok(_) => Ok(()),
            Err(_) => Err(NoMemory),
        }
    }

    /// Keeps a name up to a point at least.
    pub(crate) fn keep(&mut self, name: Name, end: usize) -> Result<(), NoMemory>
        ensures { OnOk result (Keeps self.old self.new (name ∷ []) end) }
    {
        let had = self.end(&name);
        self.put(name, had.max(end))
    }

    /// Keeps the name of a parameter.
    pub(crate) fn keep_param(&mut self, param: &Param, end: usize) -> Result<(), NoMemory>
        ensures { OnOk result (Keeps self.old self.new (param_names param.now) end) }
    {
        match param {
            Param::Named(name) => self.keep(*name, end),
            Param::Fixed(_) => Ok(()),
        }
    }

    /// Keeps the name of a step.
    pub(crate) fn keep_step(&mut self, step: &Option<Param>, end: usize) -> Result<(), NoMemory>
        ensures { OnOk result (Keeps self.old self.new (step_names step.now) end) }
    {
        match step {
            Some(param) => self.keep_param(param, end),
            None => Ok(()),
        }
    }
}
