// Why a text is no term.
use edge_io::NoMemory;
use std::alloc::{AllocError, AllocFailed};
use thiserror::Error;

/// The first fault of a text that begins with no term, met from the left, or want of memory.
#[derive(Clone, Copy, Debug, PartialEq, Eq, Error)]
pub enum ReadFault {
    /// The text ends inside brackets, or is blank, or begins with a closing bracket.
    #[error("Unbalanced")]
    Unbalanced,
    /// An atom is no number, symbol or function's name in its place, or a bracket stands in the
    /// place of a name.
    #[error("BadAtom")]
    BadAtom,
    /// No function has the name.
    #[error("UnknownFunction")]
    UnknownFunction,
    /// A function has not its number of arguments, or BLANK's is no number from 0 to 1,000,000.
    #[error("BadCount")]
    BadCount,
    /// More than 64 brackets are open.
    #[error("TooDeep")]
    TooDeep,
    /// A number has more than 18 digits after its leading zeros.
    #[error("BigNumber")]
    BigNumber,
    /// Memory was wanted and not had.
    #[error("NoMemory")]
    NoMemory,
}

impl From<AllocError> for ReadFault {
    ghost use Rattle.std.specs.Prelude.{◌≡◌};
    ghost use Rattle.formula.specs.declared.fault.ReadFault.TheVariants.{NoMemory};

    ghost from_gives = { λ _ e. e ≡ NoMemory };

    fn from(_: AllocError) -> Self {
        ReadFault::NoMemory
    }
}

impl<T: Drop> From<AllocFailed<T>> for ReadFault {
    ghost use Rattle.std.specs.Prelude.{◌≡◌};
    ghost use Rattle.formula.specs.declared.fault.ReadFault.TheVariants.{NoMemory};

    ghost from_gives = { λ _ e. e ≡ NoMemory };

    fn from(_: AllocFailed<T>) -> Self {
        ReadFault::NoMemory
    }
}

impl From<NoMemory> for ReadFault {
    ghost use Rattle.std.specs.Prelude.{◌≡◌};
    ghost use Rattle.formula.specs.declared.fault.ReadFault.TheVariants as fault;

    ghost from_gives = { λ _ e. e ≡ fault.NoMemory };

    fn from(_: NoMemory) -> Self {
        ReadFault::NoMemory
    }
}
