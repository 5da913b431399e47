// What a condition comes to.
ghost use Rattle.std.specs.Prelude.{◌≡◌};
ghost use Rattle.try_lines.specs.Verdicts.{verdict_word};

/// What the condition that a TRY card names comes to by the values that the card gives.
#[derive(Clone, Copy, Debug, PartialEq, Eq)]
pub enum Verdict {
    /// Its term is worth something else than F.
    True,
    /// Its term is worth F.
    False,
    /// A number is out of range.
    Beyond,
    /// Definitions are used too often.
    Spent,
    /// No condition has that name.
    Unknown,
}

impl Verdict {
    /// The word for it in texts.
    pub fn word(self) -> &'static [u8]
        ensures { result.now ≡ verdict_word self }
    {
        match self {
            Verdict::True => b"TRUE",
            Verdict::False => b"FALSE",
            Verdict::Beyond => b"BEYOND",
            Verdict::Spent => b"SPENT",
            Verdict::Unknown => b"UNKNOWN",
        }
    }
}
