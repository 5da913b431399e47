// What is found of a deck that is accepted.
ghost use Rattle.std.specs.Prelude.{◌≡◌};
ghost use Rattle.deck_judging.specs.Findings.{judged_as};

use crate::Judged;
use edge_io::List;
use formula::{Definitions, TermPool};
use fort_notes::{RunCard, TryCard};
use fort_syntax::{Condition, Deck};

/// What is found of a deck that is accepted, without the deck itself.
#[derive(Drop)]
pub(crate) struct Findings {
    pub pool: TermPool,
    pub definitions: Definitions,
    pub conditions: List<Condition>,
    pub units: usize,
    pub paths: u32,
    pub bound: u64,
    pub order: List<u32>,
    pub runs: List<RunCard>,
    pub tries: List<TryCard>,
}

/// A deck and what is found of it.
pub(crate) fn judged_as(deck: Deck, findings: Findings) -> Judged
    ensures { result ≡ judged_as deck findings }
{
    let Findings {
        pool,
        definitions,
        conditions,
        units,
        paths,
        bound,
        order,
        runs,
        tries,
    } = findings;
    Judged {
        deck,
        pool,
        definitions,
        conditions,
        units,
        paths,
        bound,
        order,
        runs,
        tries,
    }
}
