// Runs.
ghost use Rattle.std.specs.Prelude.{◌≡◌, IfOk, Some, slice_get};
ghost use Rattle.run_eval.specs.Performed.{IsBegun, IsPerformed, IsRunDeck, entries_begun, entries_with};

use crate::entries::{Entry, entries_of};
use edge_io::{List, NoMemory};
use fort_notes::{Given, RunCard};
use fort_syntax::{Name, Unit};
use run_frames::runs_are_rests;
use run_shapes::Code;
use run_start::{RunRefusal, Runnable, start};
use run_state::{Setting, State};
use run_steps::go;
use std::alloc::Global;

/// A run: the number of its unit, the start entities of it with their cells, and where it stands.
#[derive(Drop)]
pub struct Run {
    pub unit: usize,
    pub entries: List<Entry>,
    pub state: State,
}

/// The start entities of a state in which a unit is to be entered.
fn entries_coded(
    alloc: Global,
    code: &Code,
    unit: &Unit,
    state: &State,
) -> Result<List<Entry>, NoMemory>
    ensures { IfOk result (λ es. es ≡ entries_with code.now.commons (Some unit.now)
        (slice_get code.now.units state.now.frame.unit) state.now.extents.items) }
{
    match code.units.as_slice().get(state.frame.unit) {
        Some(its_code) => entries_of(
            alloc,
            code.commons.as_slice(),
            unit.dummies.as_slice(),
            its_code.shared.as_slice(),
            state,
        ),
        None => Ok(List::from_vec(Vec::new(alloc))),
    }
}

/// The start entities of a state whose unit is to be entered.
fn entries_begun(alloc: Global, deck: &Runnable<'_>, state: &State) -> Result<List<Entry>, NoMemory>
    ensures { IfOk result (λ es. es ≡ entries_begun deck.now.code.now deck.now.units.now state.now) }
{
    match deck.units.get(state.frame.unit) {
        Some(unit) => entries_coded(alloc, deck.code, unit, state),
        None => Ok(List::from_vec(Vec::new(alloc))),
    }
}

/// The run of the unit of a name from what is given, before its first step. All its memory is taken
/// here.
pub fn begun(
    alloc: Global,
    deck: &Runnable<'_>,
    setting: &Setting,
    unit: &Name,
    given: &[Given],
) -> Result<Run, RunRefusal>
    requires { IsRunDeck deck.now }
    ensures { IsBegun deck.now setting.now unit.now given.now result }
{
    match start(alloc, deck, setting, unit, given) {
        Ok(state) => {
            let Ok(entries) = entries_begun(alloc, deck, &state) else {
                return Err(RunRefusal::NoMemory);
            };
            Ok(Run {
                unit: state.frame.unit,
                entries,
                state,
            })
        }
        Err(refusal) => Err(refusal),
    }
}

/// The run that a card asks for, with the card's steps: over, or at the place where it needs one more
/// step. All its memory is taken before the first step.
pub fn performed(
    alloc: Global,
    deck: &Runnable<'_>,
    setting: &Setting,
    card: &RunCard,
) -> Result<Run, RunRefusal>
    requires { IsRunDeck deck.now }
    ensures { IsPerformed deck.now setting.now card.now result }
{
    match begun(alloc, deck, setting, &card.unit, card.start.as_slice()) {
        Ok(run) => {
            let mut run = run;
            runs_are_rests();
            go(&mut run.state, deck, setting, card.steps);
            Ok(run)
        }
        Err(refusal) => Err(refusal),
    }
}
