// Why a run does not start.

/// Why a run does not start.
#[derive(Clone, Copy, Debug, PartialEq, Eq)]
pub enum RunRefusal {
    /// No unit has the name; or a name is none of its dummies and COMMON entities, or is given twice;
    /// or a site is no argument of a call of a unit.
    UnknownName,
    /// The cells of a name are more or fewer than its dimensions say, or of the other type; or an
    /// adjustable dimension is not given, or is below 1.
    BadShape,
    /// A number is none of the processor's.
    OutOfRange,
    /// There could be more than 4,000,000 cells.
    ManyCells,
    /// There is no memory for the run.
    NoMemory,
}
