// Certificates: proofs of conditions step by step.
use edge_io::List;
use formula::{TermId, Word};

/// A step on the first goal that is left. Hypotheses are counted from 1.
#[derive(Debug, Drop)]
pub enum Step {
    /// HYP: the goal is this hypothesis, or the hypothesis is F.
    Hyp(u64),
    /// SAME: the goal is T, or says that a term is equal to itself.
    Same,
    /// GROUND: the goal has no symbol, and is not F by its worth.
    Ground,
    /// SUM: so many times the goal's form and the forms of hypotheses, each with its factor, give a
    /// contradiction.
    Sum(i64, List<(u64, i64)>),
    /// SPLIT: a goal for each argument of AND.
    Split,
    /// SUPPOSE: what implies the goal becomes a hypothesis.
    Suppose,
    /// CASES: a goal with the term as hypothesis, and one with its negation.
    Cases(TermId),
    /// TAKE: the arguments of a hypothesis that is an AND become hypotheses.
    Take(u64),
    /// CELL: the bounds of a cell that one hypothesis says and another says to be defined.
    Cell(u64, u64),
    /// UNFOLD: the use of a definition is equal to what the definition says.
    Unfold(TermId),
    /// BRANCH: an IF is equal to the branch that a hypothesis decides.
    Branch(TermId),
    /// USE: a hypothesis that is an equation is used in another one, or for 0 in the goal.
    Use(u64, u64),
    /// LINEAR: two terms of one linear form are equal.
    Linear(TermId, TermId),
}

/// The steps that are to prove the condition of a name.
#[derive(Debug, Drop)]
pub struct ProofCard {
    pub lemma: Word,
    pub steps: List<Step>,
}
