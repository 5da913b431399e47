// What a note says by its form.
use edge_io::List;
use formula::{Definition, TermId};
use fort_notes::{ProofCard, RunCard, TryCard};
use note_forms::Asserted;

/// What a note says by its form, its terms as ids of a pool.
#[derive(Debug, Drop)]
pub enum NoteForm {
    Bound(u64),
    Definition(Definition),
    Input(List<TermId>),
    Output(List<TermId>),
    Assertion(Asserted),
    Run(RunCard),
    Try(TryCard),
    Proof(ProofCard),
}
