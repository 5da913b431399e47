// Terms of notes.
ghost use Rattle.std.specs.Prelude.{◌≡◌, true, length, map, IfOk};
ghost use Rattle.formula.specs.Pool.{AllBelow, Grows, IsIn, tree_of};
ghost use Rattle.walk_names.specs.Names.{IsNames};
ghost use Rattle.note_terms.specs.Stated.{Makes, are_known_terms, is_known_term, stated, trees_in};

use edge_io::NoMemory;
use formula::{TermId, TermPool, substitute_names};
use std::alloc::Global;
use walk_names::Names;

/// A term of a note with what names stand for now put for its names, and their terms at the entry,
/// which stand at the places of the names' table, for its entry values. LEAST and GREATEST stay.
pub fn note_term(
    alloc: Global,
    pool: &mut TermPool,
    names: &Names,
    entry: &[TermId],
    id: TermId,
) -> Result<TermId, NoMemory>
    requires kept { IsNames pool.old names.now }
    requires entry { AllBelow (length pool.old) entry.now }
    requires id { IsIn pool.old id }
    requires known { is_known_term names.now.table entry.now (tree_of pool.old id) ≡ true }
    ensures grows { Grows pool.old pool.new }
    ensures is_in { IfOk result (λ r. IsIn pool.new r) }
    ensures tree { IfOk result (λ r. tree_of pool.new r ≡ stated pool.old names.now entry.now
        (tree_of pool.old id)) }
{
    let term = substitute_names(alloc, pool, &names.table, names.terms.as_slice(), entry, id)?;
    Ok(term)
}

/// The terms of a note, as `note_term` makes them, in order.
pub fn note_terms(
    alloc: Global,
    pool: &mut TermPool,
    names: &Names,
    entry: &[TermId],
    ids: &[TermId],
) -> Result<Vec<TermId>, NoMemory>
    requires kept { IsNames pool.old names.now }
    requires entry { AllBelow (length pool.old) entry.now }
    requires ids { AllBelow (length pool.old) ids.now }
    requires known { are_known_terms names.now.table entry.now (trees_in pool.old ids.now) ≡ true }
    ensures { IfOk result (λ terms. Makes pool.old pool.new terms.items
        (map (stated pool.old names.now entry.now) (trees_in pool.old ids.now))) }
{
    let mut terms = Vec::new(alloc);
    for id in ids {
        let term = note_term(alloc, pool, names, entry, *id)?;
        terms.push(term)?;
    }
    Ok(terms)
}
