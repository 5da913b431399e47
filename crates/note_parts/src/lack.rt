// Why a part was not read.
ghost use Rattle.std.specs.Prelude.{◌≡◌};

use edge_io::NoMemory;
use std::alloc::{AllocError, AllocFailed};

/// Why a part was not read.
#[derive(Clone, Copy, Debug, PartialEq, Eq)]
pub enum Lack {
    /// The text has not the form of the part.
    Form,
    /// A term uses a function that nobody knows.
    Function,
    /// Memory was wanted and not had.
    Memory,
}

impl From<NoMemory> for Lack {
    ghost use Rattle.std.specs.Prelude.{◌≡◌};
    ghost use Rattle.note_parts.specs.declared.lack.Lack.TheVariants.{Memory};

    ghost from_gives = { λ _ e. e ≡ Memory };

    fn from(_: NoMemory) -> Self {
        Lack::Memory
    }
}

impl From<AllocError> for Lack {
    ghost use Rattle.std.specs.Prelude.{◌≡◌};
    ghost use Rattle.note_parts.specs.declared.lack.Lack.TheVariants.{Memory};

    ghost from_gives = { λ _ e. e ≡ Memory };

    fn from(_: AllocError) -> Self {
        Lack::Memory
    }
}

impl<T: Drop> From<AllocFailed<T>> for Lack {
    ghost use Rattle.std.specs.Prelude.{◌≡◌};
    ghost use Rattle.note_parts.specs.declared.lack.Lack.TheVariants.{Memory};

    ghost from_gives = { λ _ e. e ≡ Memory };

    fn from(_: AllocFailed<T>) -> Self {
        Lack::Memory
    }
}
