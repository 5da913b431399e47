// Why a definition can't be added.
use edge_io::NoMemory;
use std::alloc::{AllocError, AllocFailed};
use thiserror::Error;

/// Why a definition can't be added to others: the first of these that applies, or want of memory.
#[derive(Clone, Copy, Debug, PartialEq, Eq, Error)]
pub enum DefFault {
    /// The name is that of a built-in function or of an earlier definition, or OLD.
    #[error("KnownName")]
    KnownName,
    /// A term uses a definition that is neither an earlier one nor the one that is added.
    #[error("UnknownFunction")]
    UnknownFunction,
    /// A definition is used with another number of arguments than it has parameters.
    #[error("BadCount")]
    BadCount,
    /// The definition uses itself in a plain term or in a base, or in a step with a first argument
    /// other than `(ZDIFF k 1)` for its first parameter k; or a counting one has no parameter.
    #[error("BadRecursion")]
    BadRecursion,
    /// A symbol of a term is no parameter, or an entry value stands in a term.
    #[error("FreeName")]
    FreeName,
    /// Two parameters have one name.
    #[error("SameParameter")]
    SameParameter,
    /// Memory was wanted and not had.
    #[error("NoMemory")]
    NoMemory,
}

impl From<AllocError> for DefFault {
    ghost use Rattle.std.specs.Prelude.{◌≡◌};
    ghost use Rattle.formula.specs.declared.definition_fault.DefFault.TheVariants.{NoMemory};

    ghost from_gives = { λ _ e. e ≡ NoMemory };

    fn from(_: AllocError) -> Self {
        DefFault::NoMemory
    }
}

impl<T: Drop> From<AllocFailed<T>> for DefFault {
    ghost use Rattle.std.specs.Prelude.{◌≡◌};
    ghost use Rattle.formula.specs.declared.definition_fault.DefFault.TheVariants.{NoMemory};

    ghost from_gives = { λ _ e. e ≡ NoMemory };

    fn from(_: AllocFailed<T>) -> Self {
        DefFault::NoMemory
    }
}

impl From<NoMemory> for DefFault {
    ghost use Rattle.std.specs.Prelude.{◌≡◌};
    ghost use Rattle.formula.specs.declared.definition_fault.DefFault.TheVariants as fault;

    ghost from_gives = { λ _ e. e ≡ fault.NoMemory };

    fn from(_: NoMemory) -> Self {
        DefFault::NoMemory
    }
}
