// What the notes of a deck say, as terms of a pool.
use crate::{ProofCard, RunCard, TryCard};
use edge_io::List;
use formula::TermId;

/// An ASSERT: the number, from 0, of the statement before which it stands, the card on which it
/// begins, its terms, and the parts of its clock.
#[derive(Debug, Drop)]
pub struct AssertSpec {
    pub line: u32,
    pub card: u32,
    pub terms: List<TermId>,
    pub clock: List<TermId>,
}

/// The terms of INPUT and of OUTPUT of a unit, and its ASSERTs in the order of their cards.
#[derive(Debug, Drop)]
pub struct UnitSpec {
    pub input: List<TermId>,
    pub output: List<TermId>,
    pub asserts: List<AssertSpec>,
}

/// What the notes of a deck become, beside its definitions: the bound up to which each processor
/// has all integers, the assertions of each unit in the order of the units, and the cards of RUN,
/// TRY and PROOF in the order of their cards.
#[derive(Debug, Drop)]
pub struct Specs {
    pub bound: u64,
    pub units: List<UnitSpec>,
    pub runs: List<RunCard>,
    pub tries: List<TryCard>,
    pub proofs: List<ProofCard>,
}
