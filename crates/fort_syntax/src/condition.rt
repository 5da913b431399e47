// Verification conditions.
ghost use Rattle.std.specs.Prelude.{◌≡◌};
ghost use Rattle.fort_syntax.specs.Conditions.{kind_word};

use crate::Name;
use edge_io::List;
use formula::TermId;

/// What a condition guards against, or what it shows.
#[derive(Clone, Copy, Debug, PartialEq, Eq, Hash)]
pub enum Kind {
    /// A value that is read is defined.
    DefinedCheck,
    /// A value lies within the processor's integers.
    RangeCheck,
    /// A divisor is not zero.
    DivisorCheck,
    /// A subscript lies within its dimension.
    SubscriptCheck,
    /// The selector of a computed GO TO counts one of its labels.
    ChoiceCheck,
    /// The parameters of a DO fit.
    LoopCheck,
    /// The value of a function is defined where it returns.
    ResultCheck,
    /// A term of a callee's INPUT holds at the call.
    InputCheck,
    /// A term of an ASSERT holds where a path arrives at it.
    AssertCheck,
    /// A part of a clock is not negative where a path arrives at it.
    ClockCheck,
    /// The clock has fallen since the ASSERT where the path started.
    FallCheck,
    /// A term of the OUTPUT holds at a RETURN.
    OutputCheck,
}

impl Kind {
    /// The word for the kind in texts.
    pub fn word(self) -> &'static [u8]
        ensures { result.now ≡ kind_word self }
    {
        match self {
            Kind::DefinedCheck => b"DEFINED",
            Kind::RangeCheck => b"RANGE",
            Kind::DivisorCheck => b"DIVISOR",
            Kind::SubscriptCheck => b"SUBSCRIPT",
            Kind::ChoiceCheck => b"CHOICE",
            Kind::LoopCheck => b"LOOP",
            Kind::ResultCheck => b"RESULT",
            Kind::InputCheck => b"INPUT",
            Kind::AssertCheck => b"ASSERT",
            Kind::ClockCheck => b"CLOCK",
            Kind::FallCheck => b"FALL",
            Kind::OutputCheck => b"OUTPUT",
        }
    }
}

/// A verification condition: the hypotheses have the goal as consequence. It is the `check`-th
/// condition of the `path`-th path of the unit, both counted from 1.
#[derive(Debug, Drop, PartialEq, Eq, Hash)]
pub struct Condition {
    pub unit: Name,
    pub path: u32,
    pub check: u32,
    pub kind: Kind,
    /// The card of what is checked.
    pub card: u32,
    pub hyps: List<TermId>,
    pub goal: TermId,
}
