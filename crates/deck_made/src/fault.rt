// Why a deck can't be made.
use edge_io::NoMemory;
use thiserror::Error;

/// Why a deck can't be made.
#[derive(Clone, Copy, Debug, PartialEq, Eq, Error)]
pub enum MadeFault {
    /// The number of units is not from 1 to 200.
    #[error("BadNumber")]
    BadNumber,
    /// Memory was wanted and not had.
    #[error("NoMemory")]
    NoMemory,
}

impl From<NoMemory> for MadeFault {
    ghost use Rattle.std.specs.Prelude.{◌≡◌};
    ghost use Rattle.deck_made.specs.declared.fault.MadeFault.TheVariants as fault;

    ghost from_gives = { λ _ e. e ≡ fault.NoMemory };

    fn from(_: NoMemory) -> Self {
        MadeFault::NoMemory
    }
}
