// What the runs of a deck go by.
use crate::starts::Starts;
use fort_syntax::Unit;
use run_ranks::Ranks;
use run_shapes::Code;

/// What the runs of a deck go by: its units, their code, what they need, and what starts go by.
#[derive(Drop)]
pub struct Runnable<'a> {
    pub units: &'a [Unit],
    pub code: &'a Code,
    pub ranks: &'a Ranks,
    pub starts: &'a Starts,
}
