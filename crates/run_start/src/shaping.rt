// The start of a unit whose names are known.
ghost use Rattle.std.specs.Prelude.{◌≡◌, Some, true};
ghost use Rattle.run_start.specs.Counted.{plus_to, times_to};
ghost use Rattle.run_start.specs.Counting.{IsUnitOf, AreSizes, IsStartOf, is_small};
ghost use Rattle.run_start.specs.Started.{shape_refusal, range_refusal, count_refusal};
ghost use Rattle.run_start.specs.Starts.{all_in_range};

use crate::case::Case;
use crate::counts::{plus, times};
use crate::judging::{all_in_range, greatest, sum};
use crate::refusal::RunRefusal;
use crate::runnable::Runnable;
use crate::states::{Needed, first_state};
use run_state::{Setting, State};
use std::alloc::Global;

/// The sum that must not be too great.
fn wanted(deck: &Runnable<'_>, sum: usize, most: usize) -> Option<usize>
    ensures { result ≡ plus_to (plus_to (Some sum) deck.now.starts.now.own)
        (times_to deck.now.starts.now.dummies (Some most)) }
{
    plus(
        plus(Some(sum), deck.starts.own),
        times(deck.starts.dummies, Some(most)),
    )
}

fn is_small(count: Option<usize>) -> bool
    ensures { result ≡ is_small count }
{
    match count {
        Some(count) => count <= 4_000_000,
        None => false,
    }
}

/// The start where all is in shape and in range.
fn counted(
    alloc: Global,
    deck: &Runnable<'_>,
    setting: &Setting,
    case: &Case<'_>,
    sizes: &[Option<usize>],
) -> Result<State, RunRefusal>
    requires unit { IsUnitOf deck.now case.now.unit case.now.entries.now.unit.now }
    requires sizes { AreSizes case.now.entries.now.unit.now case.now.entries.now.given.now sizes.now }
    requires range { all_in_range setting.now.bounds case.now.entries.now.given.now ≡ true }
    ensures { IsStartOf deck.now setting.now case.now.entries.now
        (count_refusal deck.now.units.now case.now.entries.now.unit.now
        case.now.entries.now.given.now) result }
{
    let Some(sum) = sum(sizes) else {
        return Err(RunRefusal::ManyCells);
    };
    let Some(most) = greatest(deck.starts.longest, sizes) else {
        return Err(RunRefusal::ManyCells);
    };
    if !is_small(wanted(deck, sum, most)) {
        return Err(RunRefusal::ManyCells);
    }
    let needed = Needed {
        bounds: &setting.bounds,
        sizes,
        sum,
        most,
    };
    let Ok(state) = first_state(alloc, deck, case, &needed) else {
        return Err(RunRefusal::NoMemory);
    };
    Ok(state)
}

/// The start where all is in shape.
fn ranged(
    alloc: Global,
    deck: &Runnable<'_>,
    setting: &Setting,
    case: &Case<'_>,
    sizes: &[Option<usize>],
) -> Result<State, RunRefusal>
    requires unit { IsUnitOf deck.now case.now.unit case.now.entries.now.unit.now }
    requires sizes { AreSizes case.now.entries.now.unit.now case.now.entries.now.given.now sizes.now }
    ensures { IsStartOf deck.now setting.now case.now.entries.now
        (range_refusal deck.now.units.now setting.now case.now.entries.now.unit.now
        case.now.entries.now.given.now) result }
{
    if !all_in_range(&setting.bounds, case.entries.given) {
        return Err(RunRefusal::OutOfRange);
    }
    counted(alloc, deck, setting, case, sizes)
}

/// The start of a unit whose names are known.
pub(crate) fn shaped(
    alloc: Global,
    deck: &Runnable<'_>,
    setting: &Setting,
    case: &Case<'_>,
) -> Result<State, RunRefusal>
    requires unit { IsUnitOf deck.now case.now.unit case.now.entries.now.unit.now }
    ensures { IsStartOf deck.now setting.now case.now.entries.now
        (shape_refusal deck.now.units.now setting.now case.now.entries.now.unit.now
        case.now.entries.now.given.now) result }
{
    let Ok(shapes) = case.entries.shapes(alloc, case.names) else {
        return Err(RunRefusal::NoMemory);
    };
    match shapes {
        Some(sizes) => ranged(alloc, deck, setting, case, sizes.as_slice()),
        None => Err(RunRefusal::BadShape),
    }
}
