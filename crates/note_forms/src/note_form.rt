// What an ASSERT says.
use edge_io::List;
use formula::TermId;

/// The terms of an ASSERT, whether CLOCK stands behind them, and the parts of its clock.
#[derive(Debug, Drop)]
pub struct Asserted {
    pub terms: List<TermId>,
    pub has_clock: bool,
    pub clock: List<TermId>,
}
