// Terms put for the symbols of a term, and for their entry values, all at once.
ghost use Rattle.std.specs.Prelude.{◌≡◌, ◌++◌, ◌∷◌, [], List, ℕ, length, if◌then◌else◌, IfOk, OnOk};
ghost use Rattle.formula.specs.declared.node.Node.{Node};
ghost use Rattle.formula.specs.Pool.{AllBelow, Grows, IsIn, tree_of};
ghost use Rattle.formula.specs.Substitution.{AreIn, binding_of, term_named, under, under_names};

use crate::replacement::{Replacement, Table, replaced};
use crate::{NameTable, TermId, TermPool, Word};
use edge_io::{Keys, NoMemory};
use std::alloc::Global;

/// A symbol, or its entry value, and the term that is put for it.
#[derive(Clone, Copy, Debug, PartialEq, Eq)]
pub struct Binding {
    pub name: Word,
    pub term: TermId,
}

/// The term with the bound terms put for its symbols and for their entry values, all at once. Of
/// two bindings of a name the first counts, and what has none stays. It takes time in the number of
/// nodes that the term is made of, and of the bindings, whatever the pool has beside them.
pub fn substitute(
    alloc: Global,
    pool: &mut TermPool,
    symbols: &[Binding],
    entries: &[Binding],
    id: TermId,
) -> Result<TermId, NoMemory>
    requires symbols { AreIn pool.old symbols.now }
    requires entries { AreIn pool.old entries.now }
    requires id { IsIn pool.old id }
    ensures is_in { IfOk result (λ r. IsIn pool.new r) }
    ensures tree { IfOk result (λ r. tree_of pool.new r ≡ under pool.old symbols.now entries.now
        (tree_of pool.old id)) }
    ensures grows { Grows pool.old pool.new }
{
    let symbols = table_of(alloc, pool.keys(), symbols)?;
    let entries = table_of(alloc, pool.keys(), entries)?;
    let by = Replacement {
        symbols: Table {
            names: &symbols.names,
            terms: symbols.terms.as_slice(),
            bounds_stay: false,
        },
        entries: Table {
            names: &entries.names,
            terms: entries.terms.as_slice(),
            bounds_stay: false,
        },
    };
    replaced(alloc, pool, &by, id)
}

/// The term with the present terms of names put for its symbols, and their entry terms for its entry
/// values, all at once: the terms at the places that the names have in the table. LEAST and GREATEST
/// stay symbols, whatever the table names, and so does a name that the table lacks. It takes time in
/// the number of nodes that the term is made of, whatever the pool has beside them.
pub fn substitute_names(
    alloc: Global,
    pool: &mut TermPool,
    names: &NameTable,
    now: &[TermId],
    entry: &[TermId],
    id: TermId,
) -> Result<TermId, NoMemory>
    requires now { AllBelow (length pool.old) now.now }
    requires entry { AllBelow (length pool.old) entry.now }
    requires id { IsIn pool.old id }
    ensures is_in { IfOk result (λ r. IsIn pool.new r) }
    ensures tree { IfOk result (λ r. tree_of pool.new r ≡ under_names pool.old names.now
        now.now entry.now (tree_of pool.old id)) }
    ensures grows { Grows pool.old pool.new }
{
    let by = Replacement {
        symbols: Table {
            names,
            terms: now,
            bounds_stay: true,
        },
        entries: Table {
            names,
            terms: entry,
            bounds_stay: false,
        },
    };
    replaced(alloc, pool, &by, id)
}

/// The names of bindings, each once, and their terms.
#[derive(Drop)]
struct Listed {
    names: NameTable,
    terms: Vec<TermId>,
}

/// The names of some bindings with the terms of their first bindings.
fn table_of(alloc: Global, keys: Keys, bindings: &[Binding]) -> Result<Listed, NoMemory>
    ensures terms { IfOk result (λ l. (name : List ℕ) → term_named l.names l.terms.items name
        ≡ binding_of bindings.now name) }
    ensures below { IfOk result (λ l. (pool : List Node) → AreIn pool bindings.now
        → AllBelow (length pool) l.terms.items) }
{
    let mut names = NameTable::new(alloc, keys);
    let mut terms = Vec::new(alloc);
    for b in bindings {
        let new = names.add(b.name)?;
        put_new(&mut terms, new, b.term)?;
    }
    Ok(Listed { names, terms })
}

/// Puts the term of a name at the end, where the name is new.
fn put_new(terms: &mut Vec<TermId>, new: bool, term: TermId) -> Result<(), NoMemory>
    ensures { OnOk result (terms.new.items ≡ (if new then terms.old.items ++ term ∷ []
        else terms.old.items)) }
{
    if new {
        let Ok(()) = terms.push(term) else {
            return Err(NoMemory);
        };
    }
    Ok(())
}
