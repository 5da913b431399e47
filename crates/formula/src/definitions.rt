// The definitions of a run.
ghost use Rattle.std.specs.Prelude.{◌≡◌, ◌≢◌, ◌-◌, ◌^◌, ◌<◌, ◌≤◌, [], ◌∷◌, ◌++◌, length, slice_get, Some, None, IfErr, IfOk, OnOk, OnErr};
ghost use Rattle.formula.specs.Adding.{AreAdded, IsBodyIn, adding_fault};
ghost use Rattle.formula.specs.Headings.{headings_of};
ghost use Rattle.formula.specs.Reading.{defined_among};
ghost use Rattle.formula.specs.Worth.{body_of};

use crate::adding::fault_of;
use crate::candidate::Candidate;
use crate::{Body, DefFault, Definition, Heading, Headings, TermPool, Word};
use edge_io::{Keys, List, NoMemory};
use std::alloc::Global;
use std::marker::Model;

/// Definitions, numbered from 1, no two of which have one name.
#[derive(Drop)]
pub struct Definitions {
    headings: Headings,
    items: Vec<Definition>,
    keys: Keys,
    alloc: Global,
}

impl Model for Definitions {
    ghost use Rattle.std.specs.Prelude.{List, ◌≡◌};
    ghost use Rattle.formula.specs.declared.definition.Definition.{Definition};
    ghost use Rattle.formula.specs.Headings.{headings_of};

    ghost Value = { List Definition };

    ghost view = { λ d. d.items.items };

    ghost invariant = { λ d. d.headings ≡ headings_of d.items.items };
}

impl Definitions {
    /// No definition. It takes no memory. No answer depends on the keys.
    pub fn new(alloc: Global, keys: Keys) -> Definitions
        ensures { result ≡ [] }
    {
        Definitions {
            headings: Headings::new(alloc, keys),
            items: Vec::new(alloc),
            keys,
            alloc,
        }
    }

    /// The headings of the definitions.
    pub fn headings(&self) -> &Headings
        ensures { result.now ≡ headings_of self.now }
    {
        &self.headings
    }

    /// The number of definitions.
    pub fn count(&self) -> usize
        ensures count { result ≡ length self.now }
        ensures small { result < 2 ^ 63 }
    {
        self.items.len()
    }

    /// The definition of number k.
    pub fn get(&self, k: usize) -> &Definition
        requires low { 1 ≤ k }
        requires high { k ≤ length self.now }
        ensures { slice_get self.now (k - 1) ≡ Some result.now }
    {
        &self.items[k - 1]
    }

    /// Adds a definition behind the others; its terms are of the pool. Where it is at fault, the
    /// first fault of the list in `DefFault` is answered. Want of memory may be answered in place of
    /// any other answer. After a refusal the definitions are what they were. It takes time and
    /// memory in the number of nodes that the terms reach, however often a term stands in another.
    pub fn add(
        &mut self,
        pool: &TermPool,
        name: Word,
        params: List<Word>,
        body: Body,
    ) -> Result<(), DefFault>
        requires { IsBodyIn pool.now body }
        ensures ok { OnOk result (self.new ≡ self.old ++
            (record { name = name; params = params; body = body }) ∷ []) }
        ensures fits { OnOk result (adding_fault (headings_of self.old) name params
            (body_of pool.now body) ≡ None) }
        ensures fault { IfErr result (λ f. f ≢ DefFault.NoMemory
            → adding_fault (headings_of self.old) name params (body_of pool.now body) ≡ Some f) }
        ensures unchanged { OnErr result (self.new ≡ self.old) }
        ensures added { OnOk result (AreAdded pool.now self.old → AreAdded pool.now self.new) }
    {
        match self.fault(pool, name, params.as_slice(), body) {
            Ok(None) => self.put(name, params, body),
            Ok(Some(fault)) => Err(fault),
            Err(NoMemory) => Err(DefFault::NoMemory),
        }
    }

    /// The first fault of a definition behind these.
    fn fault(
        &self,
        pool: &TermPool,
        name: Word,
        params: &[Word],
        body: Body,
    ) -> Result<Option<DefFault>, NoMemory>
        requires { IsBodyIn pool.now body }
        ensures { IfOk result (λ f. f ≡ adding_fault (headings_of self.now) name params.now
            (body_of pool.now body)) }
    {
        let made = Candidate::new(self.alloc, self.keys, &self.headings, name, params);
        let Ok((candidate, twin)) = made else {
            return Err(NoMemory);
        };
        fault_of(self.alloc, pool, &candidate, twin, body)
    }

    /// Puts a definition of a name that no other has behind the others.
    fn put(&mut self, name: Word, params: List<Word>, body: Body) -> Result<(), DefFault>
        requires { defined_among 1 (headings_of self.old) name ≡ None }
        ensures ok { OnOk result (self.new ≡ self.old ++
            (record { name = name; params = params; body = body }) ∷ []) }
        ensures unchanged { OnErr result (self.new ≡ self.old) }
        ensures memory { IfErr result (λ f. f ≡ DefFault.NoMemory) }
    {
        let count = params.as_slice().len();
        let Ok(()) = self.items.push(Definition { name, params, body }) else {
            return Err(DefFault::NoMemory);
        };
        let Ok(()) = self.headings.push(Heading { name, count }) else {
            let _refused = self.items.pop();
            return Err(DefFault::NoMemory);
        };
        Ok(())
    }
}
