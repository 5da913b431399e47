// The lines of the RUN cards of a deck.
ghost use Rattle.std.specs.Prelude.{◌≡◌, IfOk};
ghost use Rattle.run_ranks.specs.Runnable.{CanRun};
ghost use Rattle.run_shapes.specs.Coded.{IsCodeOf};
ghost use Rattle.run_texts.specs.Runs.{run_text};

use crate::lines::lines_text;
use edge_io::{Keys, List, NoMemory};
use fort_notes::RunCard;
use fort_syntax::{Dialect, Unit};
use run_ranks::Ranks;
use run_shapes::Code;
use run_start::{Runnable, Starts};
use run_units::code_of_units;
use std::alloc::Global;

/// A deck whose RUN cards are performed: its dialect, its units and the order in which each of them
/// stands behind those that it calls, and its bound.
#[derive(Drop)]
pub struct RunDeck<'a> {
    pub dialect: Dialect,
    pub units: &'a [Unit],
    pub order: &'a [u32],
    pub bound: u64,
}

/// The lines of cards of a deck whose units have this code.
fn coded_text(
    alloc: Global,
    keys: Keys,
    deck: &RunDeck,
    code: &Code,
    cards: &[RunCard],
) -> Result<List<u8>, NoMemory>
    requires can_run { CanRun deck.now.dialect deck.now.units.now deck.now.order.now }
    requires coded { IsCodeOf deck.now.dialect deck.now.units.now code.now }
    ensures { IfOk result (λ text. text ≡ run_text deck.now.dialect deck.now.units.now
        deck.now.bound 1 cards.now) }
{
    let Ok(ranks) = Ranks::new(alloc, code, deck.units, deck.order) else {
        return Err(NoMemory);
    };
    let Ok(starts) = Starts::new(alloc, keys, deck.units, code, &ranks) else {
        return Err(NoMemory);
    };
    let runnable = Runnable {
        units: deck.units,
        code,
        ranks: &ranks,
        starts: &starts,
    };
    lines_text(alloc, &runnable, deck.bound, cards)
}

/// The lines of RUN cards, in order: for each of them what the run of its unit comes to from the start
/// that it gives, with its processor and its steps, or why it does not start. The units are made into
/// code once. Memory is taken before the first step of each run, and none by its steps; where it is
/// wanted and not had, there is no text. No answer depends on the keys.
pub fn run_text(
    alloc: Global,
    keys: Keys,
    deck: &RunDeck,
    cards: &[RunCard],
) -> Result<List<u8>, NoMemory>
    requires { CanRun deck.now.dialect deck.now.units.now deck.now.order.now }
    ensures { IfOk result (λ text. text ≡ run_text deck.now.dialect deck.now.units.now
        deck.now.bound 1 cards.now) }
{
    if cards.is_empty() {
        return Ok(List::from_vec(Vec::new(alloc)));
    }
    let Ok(code) = code_of_units(alloc, keys, deck.dialect, deck.units) else {
        return Err(NoMemory);
    };
    coded_text(alloc, keys, deck, &code, cards)
}
