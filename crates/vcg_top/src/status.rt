// How a call ends.
ghost use Rattle.std.specs.Prelude.{◌≡◌};
ghost use Rattle.vcg_top.specs.Status.{status_number};

/// How a call of `vcg` ends.
#[derive(Clone, Copy, Debug, PartialEq, Eq)]
pub enum Status {
    /// The conditions were written.
    Done,
    /// The deck is refused, and the line of its fault was written.
    Refused,
    /// The words are none that the program knows.
    Usage,
    /// The source failed.
    ReadFault,
    /// The sink failed.
    WriteFault,
    /// Memory was wanted and not had.
    NoMemory,
}

impl Status {
    /// The number with which the program ends: 0 to 5, in the order of the variants.
    pub fn number(self) -> u8
        ensures { result ≡ status_number self }
    {
        match self {
            Status::Done => 0,
            Status::Refused => 1,
            Status::Usage => 2,
            Status::ReadFault => 3,
            Status::WriteFault => 4,
            Status::NoMemory => 5,
        }
    }
}
