// The start of a run.
ghost use Rattle.std.specs.Prelude.{◌≡◌, ◌<◌, ◌&&◌, not, List, Some, length, slice_get};
ghost use Rattle.fort_syntax.specs.declared.unit.Unit.{Unit as Routine};
ghost use Rattle.fort_notes.specs.declared.cases.Given.{Given};
ghost use Rattle.run_ranks.specs.Runnable.{IsRunnable};
ghost use Rattle.run_start.specs.Cases.{AreTables};
ghost use Rattle.run_start.specs.Decks.{AreStarts};
ghost use Rattle.run_start.specs.Started.{IsStarted, IsStartBy, IsFirstOf, refusal_in};
ghost use Rattle.run_start.specs.Starts.{is_unknown_in};

use crate::case::Case;
use crate::entries::{Entries, all_known};
use crate::judging::{Callers, are_sites};
use crate::refusal::RunRefusal;
use crate::runnable::Runnable;
use crate::shaping::shaped;
use crate::tables::{Tables, tables_of};
use fort_notes::{Given, Passing};
use fort_syntax::Name;
use run_state::{Setting, State};
use std::alloc::Global;

fn some_unknown(twice: bool, known: bool, sites: bool) -> bool
    ensures { result ≡ not ((not twice && known) && sites) }
{
    twice || !known || !sites
}

/// Whether a name is none of the unit's start entities, or is given twice, or a site is none.
fn is_unknown(deck: &Runnable<'_>, tables: &Tables, passing: &Passing) -> bool
    requires runnable { IsRunnable deck.now.units.now deck.now.code.now deck.now.ranks.now }
    requires starts { AreStarts deck.now.units.now deck.now.code.now deck.now.ranks.now deck.now.starts.now }
    ensures { (u : Routine) (given : List Given) → AreTables u given tables.now
        → result ≡ is_unknown_in deck.now.units.now passing.now (Some u) given }
{
    let known = all_known(&tables.places, tables.words.as_slice());
    let callers = Callers {
        units: deck.units,
        codes: deck.code.units.as_slice(),
        places: &deck.starts.places,
    };
    let sites = are_sites(&callers, passing);
    some_unknown(tables.twice, known, sites)
}

/// The start of the unit of a number, with tables.
fn start_unit(
    alloc: Global,
    deck: &Runnable<'_>,
    setting: &Setting,
    i: usize,
    given: &[Given],
) -> Result<State, RunRefusal>
    requires runnable { IsRunnable deck.now.units.now deck.now.code.now deck.now.ranks.now }
    requires starts { AreStarts deck.now.units.now deck.now.code.now deck.now.ranks.now deck.now.starts.now }
    requires there { i < length deck.now.units.now }
    ensures { IsStartBy (refusal_in deck.now.units.now setting.now (slice_get deck.now.units.now i)
        given.now) (IsFirstOf deck.now setting.now i given.now) result }
{
    let unit = &deck.units[i];
    let Ok(tables) = tables_of(alloc, deck.starts.keys, unit, given) else {
        return Err(RunRefusal::NoMemory);
    };
    if is_unknown(deck, &tables, &setting.passing) {
        return Err(RunRefusal::UnknownName);
    }
    let entries = Entries {
        unit,
        given,
        table: &tables.table,
        names: &tables.known,
    };
    let case = Case {
        unit: i,
        entries: &entries,
        names: tables.names.as_slice(),
        places: &tables.places,
    };
    shaped(alloc, deck, setting, &case)
}

/// The first state of a run of the unit of a name, where names have these cells. It takes all the
/// memory that the run needs, in time for the unit's names and for what is given.
pub fn start(
    alloc: Global,
    deck: &Runnable<'_>,
    setting: &Setting,
    unit: &Name,
    given: &[Given],
) -> Result<State, RunRefusal>
    requires runnable { IsRunnable deck.now.units.now deck.now.code.now deck.now.ranks.now }
    requires starts { AreStarts deck.now.units.now deck.now.code.now deck.now.ranks.now deck.now.starts.now }
    ensures { IsStarted deck.now setting.now unit.now given.now result }
{
    let Some(i) = deck.starts.places.place(unit) else {
        return Err(RunRefusal::UnknownName);
    };
    if i >= deck.units.len() {
        return Err(RunRefusal::UnknownName);
    }
    start_unit(alloc, deck, setting, i, given)
}
