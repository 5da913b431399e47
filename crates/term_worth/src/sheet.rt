// An assignment of values to symbols.
ghost use Rattle.std.specs.Prelude.{◌≡◌, ◌↔◌, [], ◌∷◌, ◌++◌, Some, Err, true, is_some, slice_get, IfSome, IfNone, OnOk, OnErr};
ghost use Rattle.term_worth.specs.declared.sheet_fault.SheetFault.TheVariants.{KnownSymbol};
ghost use Rattle.formula.specs.declared.value.Value.TheVariants.{Undefined};
ghost use Rattle.term_worth.specs.Sheets.{AreDistinct, is_set};
ghost use Rattle.formula.specs.Worth.{assigned};

use crate::SheetFault;
use edge_io::Keys;
use formula::{Value, Word};
use indexmap::IndexSet;
use std::alloc::Global;
use std::marker::Model;

/// Symbols and their values, in the order in which they were set. No symbol has two.
#[derive(Drop)]
pub struct Sheet {
    entries: Vec<(Word, Value)>,
    symbols: IndexSet<Word, Keys>,
}

impl Model for Sheet {
    ghost use Rattle.std.specs.Prelude.{◌≡◌, List, ℕ};
    ghost use Rattle.std.specs.Map.{keys_of};
    ghost use Rattle.formula.specs.declared.value.Value.{Value as Worth};
    ghost use Rattle.term_worth.specs.Sheets.{AreDistinct};

    ghost Value = { List (List ℕ × Worth) };

    ghost view = { λ s. s.entries.items };

    ghost invariant = { λ s. (s.symbols.keys ≡ keys_of s.entries.items) × AreDistinct s.entries.items };
}

impl Sheet {
    /// No symbol has a value. It takes no memory.
    pub fn new(alloc: Global, keys: Keys) -> Sheet
        ensures { result ≡ [] }
    {
        Sheet {
            entries: Vec::new(alloc),
            symbols: IndexSet::with_hasher(alloc, keys),
        }
    }

    /// Gives a value to a symbol that has none. A symbol that has one is a `KnownSymbol`. Where
    /// that or want of memory is the answer, nothing changes.
    pub fn set(&mut self, symbol: Word, value: Value) -> Result<(), SheetFault>
        ensures added { OnOk result (self.new ≡ self.old ++ (symbol, value) ∷ []) }
        ensures unchanged { OnErr result (self.new ≡ self.old) }
        ensures known { (result ≡ Err KnownSymbol) ↔ (is_set self.old symbol ≡ true) }
    {
        if self.has(symbol) {
            return Err(SheetFault::KnownSymbol);
        }
        let Ok(()) = self.entries.push((symbol, value)) else {
            return Err(SheetFault::NoMemory);
        };
        let Ok(_) = self.symbols.insert(symbol) else {
            self.entries.pop();
            return Err(SheetFault::NoMemory);
        };
        Ok(())
    }

    /// Whether a symbol has a value.
    pub(crate) fn has(&self, symbol: Word) -> bool
        ensures { result ≡ is_set self.now symbol }
    {
        self.symbols.contains(&symbol)
    }

    /// The symbols with their values, in the order in which they were set.
    pub fn entries(&self) -> &[(Word, Value)]
        ensures entries { result.now ≡ self.now }
        ensures distinct { AreDistinct self.now }
    {
        self.entries.as_slice()
    }

    /// The place of a symbol's entry, counted from 0, where there is one.
    pub(crate) fn place_of(&self, symbol: Word) -> Option<usize>
        ensures entry { IfSome result (λ k. slice_get self.now k ≡ Some (symbol, assigned self.now symbol)) }
        ensures absent { IfNone result (assigned self.now symbol ≡ Undefined) }
        ensures found { is_some result ≡ is_set self.now symbol }
    {
        self.symbols.get_index_of(&symbol)
    }
}
