// Where notes belong.
use fort_notes::{ProofCard, RunCard, TryCard, UnitSpec};

// The bounds, the notes of each unit, and the cards of RUN, TRY and PROOF, each in the order of the notes.
#[derive(Drop)]
pub(crate) struct Sorted {
    pub bounds: Vec<u64>,
    pub units: Vec<UnitSpec>,
    pub runs: Vec<RunCard>,
    pub tries: Vec<TryCard>,
    pub proofs: Vec<ProofCard>,
}
