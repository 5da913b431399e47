// Why a symbol can't be given a value.
use std::alloc::{AllocError, AllocFailed};
use thiserror::Error;

/// Why a symbol can't be given a value.
#[derive(Clone, Copy, Debug, PartialEq, Eq, Error)]
pub enum SheetFault {
    /// The symbol has one.
    #[error("KnownSymbol")]
    KnownSymbol,
    /// Memory was wanted and not had.
    #[error("NoMemory")]
    NoMemory,
}

impl From<AllocError> for SheetFault {
    ghost use Rattle.std.specs.Prelude.{◌≡◌};
    ghost use Rattle.term_worth.specs.declared.sheet_fault.SheetFault.TheVariants.{NoMemory};

    ghost from_gives = { λ _ e. e ≡ NoMemory };

    fn from(_: AllocError) -> Self {
        SheetFault::NoMemory
    }
}

impl<T: Drop> From<AllocFailed<T>> for SheetFault {
    ghost use Rattle.std.specs.Prelude.{◌≡◌};
    ghost use Rattle.term_worth.specs.declared.sheet_fault.SheetFault.TheVariants.{NoMemory};

    ghost from_gives = { λ _ e. e ≡ NoMemory };

    fn from(_: AllocFailed<T>) -> Self {
        SheetFault::NoMemory
    }
}
