// Why a term has no worth.
use edge_io::NoMemory;
use thiserror::Error;

/// Why the evaluation of a term came to no value.
#[derive(Clone, Copy, Debug, PartialEq, Eq, Error)]
pub enum Worth {
    /// A subterm's number is below -2^120 or above 2^120.
    #[error("Beyond")]
    Beyond,
    /// A definition is used when all turns are taken.
    #[error("Spent")]
    Spent,
    /// Memory was wanted and not had.
    #[error("NoMemory")]
    NoMemory,
}

impl From<NoMemory> for Worth {
    ghost use Rattle.std.specs.Prelude.{◌≡◌};
    ghost use Rattle.term_worth.specs.declared.no_worth.Worth.TheVariants as why;

    ghost from_gives = { λ _ e. e ≡ why.NoMemory };

    fn from(_: NoMemory) -> Self {
        Worth::NoMemory
    }
}
