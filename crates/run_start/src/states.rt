// The first state of a run.
ghost use Rattle.std.specs.Prelude.{◌≡◌, ◌≤◌, ◌+◌, [], ◌++◌, Some, true, length, IfOk, IfSome};
ghost use Rattle.run_calls.specs.Calls.{new_frame};
ghost use Rattle.run_ranks.specs.Needs.{cells_need};
ghost use Rattle.run_start.specs.Counting.{IsUnitOf, AreSizes, IsBegun};
ghost use Rattle.run_start.specs.Filled.{filled, ends_from, segment_by};
ghost use Rattle.run_start.specs.Shapes.{sum_from};
ghost use Rattle.run_start.specs.Starts.{all_in_range};

use crate::case::Case;
use crate::filling::{Ground, ends, fill};
use crate::runnable::Runnable;
use edge_io::NoMemory;
use fort_model::Bounds;
use fort_syntax::Name;
use run_ranks::UnitRank;
use run_rooms::{Pile, Stack};
use run_state::{Extent, Frame, Row, Stage, State};
use std::alloc::Global;

/// What a start needs: the sizes of the start entities, their sum, and the greatest of all.
#[derive(Drop)]
pub(crate) struct Needed<'a> {
    pub bounds: &'a Bounds,
    pub sizes: &'a [Option<usize>],
    pub sum: usize,
    pub most: usize,
}

/// A frame before its entry, whose extents begin there.
fn new_frame(unit: usize, first: usize) -> Frame
    ensures { result ≡ new_frame unit first }
{
    Frame {
        unit,
        line: 0,
        place: 0,
        stop: 0,
        card: 0,
        extents: first,
        before: 0,
        floor: 0,
        number: 0,
        actuals: 0,
        base: 0,
    }
}

/// How many cells there are at most, where there is such a number.
fn cells_room(rank: &UnitRank, sum: usize, most: usize) -> Option<usize>
    ensures { IfSome result (λ n. n ≡ sum + cells_need most rank.now) }
{
    let Some(copies) = rank.copies.checked_mul(most) else {
        return None;
    };
    let Some(more) = rank.plain.checked_add(copies) else {
        return None;
    };
    sum.checked_add(more)
}

/// The extents of the COMMON entities of the deck, and of dummies.
fn begin_extents(
    alloc: Global,
    ground: &Ground<'_>,
    commons: &[Name],
    dummies: &[Name],
    names: usize,
) -> Result<Row<Extent>, NoMemory>
    ensures items { IfOk result (λ row. row.items ≡ segment_by ground.now.names.now
        ground.now.ends.now commons.now ++ segment_by ground.now.names.now ground.now.ends.now
        dummies.now) }
    ensures room { IfOk result (λ row. length commons.now + names ≤ row.room) }
{
    let Some(room) = commons.len().checked_add(names.max(dummies.len())) else {
        return Err(NoMemory);
    };
    let Ok(row) = Row::new(alloc, room) else {
        return Err(NoMemory);
    };
    let mut row = row;
    ground.push_segment(&mut row, commons);
    ground.push_segment(&mut row, dummies);
    Ok(row)
}

/// The cells of the start entities.
fn begin_cells(
    alloc: Global,
    case: &Case<'_>,
    needed: &Needed<'_>,
    room: usize,
) -> Result<Pile, NoMemory>
    requires range { all_in_range needed.now.bounds.now case.now.entries.now.given.now ≡ true }
    requires room { length (filled case.now.entries.now.given.now case.now.names.now
        needed.now.sizes.now) ≤ room }
    ensures { IfOk result (λ pile. pile ≡ record {
      items = filled case.now.entries.now.given.now
          case.now.names.now needed.now.sizes.now;
      room = room;
    }) }
{
    let Ok(pile) = Pile::new(alloc, room) else {
        return Err(NoMemory);
    };
    let mut pile = pile;
    fill(
        &mut pile,
        case.entries,
        needed.bounds,
        case.names,
        needed.sizes,
    );
    Ok(pile)
}

/// The first state of a run, with all the room that the run needs.
pub(crate) fn first_state(
    alloc: Global,
    deck: &Runnable<'_>,
    case: &Case<'_>,
    needed: &Needed<'_>,
) -> Result<State, NoMemory>
    requires unit { IsUnitOf deck.now case.now.unit case.now.entries.now.unit.now }
    requires sizes { AreSizes case.now.entries.now.unit.now case.now.entries.now.given.now
        needed.now.sizes.now }
    requires sum { sum_from (Some 0) needed.now.sizes.now ≡ Some needed.now.sum }
    requires range { all_in_range needed.now.bounds.now case.now.entries.now.given.now ≡ true }
    ensures { IfOk result (IsBegun deck.now case.now.unit case.now.entries.now.unit.now
        case.now.entries.now.given.now needed.now.sizes.now needed.now.sum needed.now.most) }
{
    let commons = deck.code.commons.as_slice();
    let rank = &deck.ranks.units.as_slice()[case.unit];
    let Some(room) = cells_room(rank, needed.sum, needed.most) else {
        return Err(NoMemory);
    };
    let ends = ends(alloc, needed.sizes)?;
    let ground = Ground {
        names: case.names,
        places: case.places,
        ends: ends.as_slice(),
    };
    let dummies = case.entries.unit.dummies.as_slice();
    let extents = begin_extents(alloc, &ground, commons, dummies, rank.names)?;
    let cells = begin_cells(alloc, case, needed, room)?;
    let Ok(callers) = Stack::new(alloc, rank.frames) else {
        return Err(NoMemory);
    };
    let Ok(values) = Stack::new(alloc, rank.values) else {
        return Err(NoMemory);
    };
    Ok(State {
        stage: Stage::Entering,
        frame: new_frame(case.unit, commons.len()),
        callers,
        values,
        extents,
        cells,
    })
}
