// What is asked of the program.
ghost use Rattle.std.specs.Prelude.{◌≡◌};
ghost use Rattle.vcg_top.specs.Commands.{dialect_of};

use fort_syntax::Dialect;

/// What is asked of a deck that is read.
#[derive(Clone, Copy, Debug, PartialEq, Eq)]
pub enum Task {
    /// `vc`: the text of its definitions and conditions.
    Vc,
    /// `check`: how many units, paths and conditions it has.
    Check,
    /// `run`: what the runs that its RUN cards ask for come to.
    Run,
    /// `try`: what its TRY cards come to.
    Try,
}

/// What the words ask for.
#[derive(Clone, Copy, Debug, PartialEq, Eq)]
pub enum Command {
    /// A task on the deck that is read, in a dialect.
    Deck(Task, Dialect),
    /// `made n`: how many units, paths, conditions and marks the made deck of n units has.
    Made(u64),
}

impl Command {
    /// The dialect of the deck: a made deck is of the common one.
    pub(crate) fn dialect(self) -> Dialect
        ensures { result ≡ dialect_of self }
    {
        match self {
            Command::Deck(_, dialect) => dialect,
            Command::Made(_) => Dialect::Common,
        }
    }
}
