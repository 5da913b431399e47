// What is found of a text that is accepted.
use edge_io::List;
use formula::{Definitions, TermPool};
use fort_notes::{RunCard, TryCard};
use fort_syntax::{Condition, Deck};

/// What is found of a text that is accepted: the deck that it is; the definitions of its notes and its
/// conditions, as terms of a pool; how many units it has, and how many paths; the bound, up to which
/// each processor has all integers; the order in which each unit stands behind those that it calls; and
/// the runs and the assignments to conditions that its notes ask for.
#[derive(Drop)]
pub struct Judged {
    pub deck: Deck,
    pub pool: TermPool,
    pub definitions: Definitions,
    pub conditions: List<Condition>,
    pub units: usize,
    pub paths: u32,
    pub bound: u64,
    pub order: List<u32>,
    pub runs: List<RunCard>,
    pub tries: List<TryCard>,
}
