// Terms replaced by others, node by node.
ghost use Rattle.std.specs.Prelude.{◌≡◌, length, map, slice_get, All, Contains, IfOk};
ghost use Rattle.formula.specs.Order.{IsAscending};
ghost use Rattle.formula.specs.Pool.{AllBelow, Grows, IsIn, arguments_at, tree_of};
ghost use Rattle.formula.specs.Substitution.{AreImages, HasImage, IsImage, changed, found_in, term_named};
ghost use Rattle.formula.specs.Substitution as bounds;

use crate::{Args, NameTable, Node, TermId, TermPool, Word, order_of};
use edge_io::NoMemory;
use std::alloc::Global;

/// Names, and the terms at their places. Where the bounds stay, LEAST and GREATEST are no names.
#[derive(Clone, Copy)]
pub struct Table<'a> {
    pub names: &'a NameTable,
    pub terms: &'a [TermId],
    pub bounds_stay: bool,
}

/// What is put for symbols, and what for entry values.
#[derive(Clone, Copy)]
pub struct Replacement<'a> {
    pub symbols: Table<'a>,
    pub entries: Table<'a>,
}

/// A term, and the term that it became.
#[derive(Clone, Copy, Debug)]
pub struct Image {
    pub id: TermId,
    pub made: TermId,
}

/// Whether a name is LEAST or GREATEST.
fn is_bound(name: Word) -> bool
    ensures { result ≡ bounds.is_bound name }
{
    b"LEAST".as_slice() == name.as_bytes() || b"GREATEST".as_slice() == name.as_bytes()
}

/// The term at a place.
fn at_place(terms: &[TermId], place: usize) -> Option<TermId>
    ensures { result ≡ slice_get terms.now place }
{
    terms.get(place).copied()
}

/// The term at the place of a name.
fn named(table: &Table, name: Word) -> Option<TermId>
    ensures { result ≡ term_named table.now.names.now table.now.terms.now name }
{
    match table.names.place_of(name) {
        Some(place) => at_place(table.terms, place),
        None => None,
    }
}

/// The term that is put for a name, where there is one.
fn term_of(table: &Table, name: Word) -> Option<TermId>
    ensures { result ≡ found_in table.now name }
{
    if table.bounds_stay && is_bound(name) {
        return None;
    }
    named(table, name)
}

/// What an id became.
fn image_of(images: &[Image], id: TermId) -> TermId
    requires ascending { IsAscending (map (λ m. m.id) images.now) }
    requires known { HasImage images.now id }
    ensures { Contains images.now (record { id = id; made = result }) }
{
    let mut low = 0;
    let mut high = images.len();
    while high - low > 1 {
        let middle = low + (high - low) / 2;
        if images[middle].id.place <= id.place {
            low = middle;
        } else {
            high = middle;
        }
    }
    images[low].made
}

/// What some ids became.
fn images_of(alloc: Global, images: &[Image], ids: &[TermId]) -> Result<Args, NoMemory>
    requires ascending { IsAscending (map (λ m. m.id) images.now) }
    requires known { All (HasImage images.now) ids.now }
    ensures { IfOk result (AreImages images.now ids.now) }
{
    let mut made = Args::empty();
    for id in ids {
        made.push(alloc, image_of(images, *id))?;
    }
    Ok(made)
}

/// What a term becomes, where it is known what its arguments became.
fn made_of(
    alloc: Global,
    pool: &mut TermPool,
    by: &Replacement,
    images: &[Image],
    id: TermId,
) -> Result<TermId, NoMemory>
    requires symbols { AllBelow (length pool.old) by.now.symbols.terms.now }
    requires entries { AllBelow (length pool.old) by.now.entries.terms.now }
    requires id { IsIn pool.old id }
    requires ascending { IsAscending (map (λ m. m.id) images.now) }
    requires known { All (HasImage images.now) (arguments_at pool.old id) }
    requires right { All (IsImage pool.old (changed pool.old by.now) pool.old) images.now }
    ensures is_in { IfOk result (λ r. IsIn pool.new r) }
    ensures tree { IfOk result (λ r. tree_of pool.new r ≡ changed pool.old by.now (tree_of pool.old id)) }
    ensures grows { Grows pool.old pool.new }
{
    match pool.node(id) {
        Node::Num(_) | Node::Truth(_) => Ok(id),
        Node::Symbol(name) => Ok(term_of(&by.symbols, *name).unwrap_or(id)),
        Node::Old(name) => Ok(term_of(&by.entries, *name).unwrap_or(id)),
        Node::Apply(f, args) => {
            let function = *f;
            let made = images_of(alloc, images, args.as_slice())?;
            pool.apply(function, made)
        }
    }
}

/// The term of an id with the terms that are put for its symbols and entry values.
pub fn replaced(
    alloc: Global,
    pool: &mut TermPool,
    by: &Replacement,
    id: TermId,
) -> Result<TermId, NoMemory>
    requires symbols { AllBelow (length pool.old) by.now.symbols.terms.now }
    requires entries { AllBelow (length pool.old) by.now.entries.terms.now }
    requires id { IsIn pool.old id }
    ensures is_in { IfOk result (λ r. IsIn pool.new r) }
    ensures tree { IfOk result (λ r. tree_of pool.new r ≡ changed pool.old by.now (tree_of pool.old id)) }
    ensures grows { Grows pool.old pool.new }
{
    let count = pool.count();
    prove!(id.index() < count);
    let order = order_of(alloc, pool, id)?;
    let ids = order.as_slice();
    let mut images = Vec::new(alloc);
    for here in ids {
        let done = images.as_slice();
        let made = made_of(alloc, pool, by, done, *here)?;
        let Ok(()) = images.push(Image { id: *here, made }) else {
            return Err(NoMemory);
        };
    }
    let all = images.as_slice();
    Ok(image_of(all, id))
}
