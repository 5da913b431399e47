// The start entities of a run.
ghost use Rattle.std.specs.Prelude.{◌≡◌, ◌∷◌, ◌++◌, [], IfOk, OnOk, slice_get, slice_index_or};
ghost use Rattle.run_state.specs.Deeds.{no_cells};
ghost use Rattle.run_eval.specs.Entries.{entries_of, entry_of, placed_entries, side_entries};

use edge_io::{List, NoMemory};
use fort_syntax::Name;
use run_state::{Extent, State, no_cells};
use std::alloc::Global;

/// A start entity of a run: its name and its cells.
#[derive(Clone, Copy, Debug)]
pub struct Entry {
    pub name: Name,
    pub cells: Extent,
}

/// Adds an entry.
fn add(entries: &mut Vec<Entry>, name: Name, cells: Extent) -> Result<(), NoMemory>
    ensures { OnOk result (entries.new.items ≡ entries.old.items ++ record {
      name = name;
      cells = cells;
    } ∷ []) }
{
    let Ok(()) = entries.push(Entry { name, cells }) else {
        return Err(NoMemory);
    };
    Ok(())
}

/// Adds names with extents that stand side by side in a state, from a place on.
fn add_side(
    entries: &mut Vec<Entry>,
    names: &[Name],
    first: usize,
    state: &State,
) -> Result<(), NoMemory>
    ensures { OnOk result (entries.new.items ≡ entries.old.items ++ side_entries names.now
        first state.now.extents.items) }
{
    for done in 0..names.len() {
        let cells = state.extents.item_behind(first, done, no_cells());
        add(entries, names[done], cells)?;
    }
    Ok(())
}

/// Adds the name at a place among some, with the extent at this place in a state.
fn add_found(
    entries: &mut Vec<Entry>,
    names: &[Name],
    place: usize,
    state: &State,
) -> Result<(), NoMemory>
    ensures { OnOk result (entries.new.items ≡ entries.old.items ++ entry_of
        (slice_get names.now place) (slice_index_or state.now.extents.items place no_cells)) }
{
    match names.get(place) {
        Some(name) => add(entries, *name, state.extents.item_or(place, no_cells())),
        None => Ok(()),
    }
}

/// Adds the names at places among some, with the extents at these places in a state.
fn add_placed(
    entries: &mut Vec<Entry>,
    places: &[usize],
    names: &[Name],
    state: &State,
) -> Result<(), NoMemory>
    ensures { OnOk result (entries.new.items ≡ entries.old.items ++ placed_entries places.now
        names.now state.now.extents.items) }
{
    for done in 0..places.len() {
        add_found(entries, names, places[done], state)?;
    }
    Ok(())
}

/// The entries of a unit that is to be entered: its dummies, and its COMMON entities at places among
/// those of the deck.
pub(crate) fn entries_of(
    alloc: Global,
    commons: &[Name],
    dummies: &[Name],
    shared: &[usize],
    state: &State,
) -> Result<List<Entry>, NoMemory>
    ensures { IfOk result (λ es. es ≡ entries_of commons.now dummies.now shared.now state.now.extents.items) }
{
    let mut entries = Vec::new(alloc);
    let Ok(()) = add_side(&mut entries, dummies, commons.len(), state) else {
        return Err(NoMemory);
    };
    let Ok(()) = add_placed(&mut entries, shared, commons, state) else {
        return Err(NoMemory);
    };
    Ok(List::from_vec(entries))
}
