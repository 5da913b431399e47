// The rules of decks.
ghost use Rattle.std.specs.Prelude.{◌≡◌};
ghost use Rattle.fort_syntax.specs.Rules.{rule_number, rule_name};

use formula::Word;

/// A rule that a deck can break; `Excluded` with the word that is not served.
#[derive(Clone, Copy, Debug, PartialEq, Eq, Hash)]
pub enum Rule {
    /// More bytes than a deck may have.
    TooLong,
    /// A byte that is not printable on a card that counts.
    BadByte,
    /// A label field without a proper label, or a label on a continuation card.
    BadLabel,
    /// A continuation card that continues nothing.
    NoInitial,
    /// One continuation card too many.
    ManyCards,
    /// Column 3 of a note card is wrong, or a note continues no note.
    BadNoteCard,
    /// A statement begins with a word that is left out of the language.
    Excluded(Word),
    /// A text spells no statement, and no other cause is found.
    BadStatement,
    /// A constant with a point.
    RealConstant,
    /// A constant of too many digits.
    BigNumber,
    /// Brackets nest too deep.
    TooDeep,
    /// A head inside a unit, or a declaration behind an executable statement.
    StatementOrder,
    /// A unit begins without a head, or the deck is empty.
    NoHead,
    /// The deck ends inside a unit.
    NoEnd,
    /// A name is declared twice in one respect.
    NameTwice,
    /// A name has neither a type nor a first letter that gives integer.
    ImplicitReal,
    /// Too many dimensions, a dimension of 0, or too many elements.
    BadDimension,
    /// A name is used as what it is not.
    BadUse,
    /// An operand, a side, a condition, a parameter or an argument has the wrong type.
    BadType,
    /// A subscript has none of the plain forms.
    BadSubscript,
    /// A label stands on two statements of a unit.
    LabelTwice,
    /// A label that is used stands on no executable statement.
    NoLabel,
    /// A function's value is assigned nowhere.
    BadResult,
    /// Two units disagree about a COMMON block, or one of its dimensions is adjustable.
    BlocksDiffer,
    /// An adjustable dimension where none may stand.
    BadAdjustable,
    /// A DO has no last statement, or one that may not end it.
    BadLastOfDo,
    /// Two ranges, of DOs or blocks, cross.
    CrossedDo,
    /// A jump from outside into a range or a block.
    JumpIntoDo,
    /// A DO's variable or parameter changes in its range.
    DoSmashed,
    /// The last executable statement lets the run go on behind it.
    FallsOffEnd,
    /// A way round without an ASSERT.
    UncutCycle,
    /// A note that is ill formed or out of place.
    BadNote,
    /// A unit has not just one INPUT and one OUTPUT.
    NoInputOrOutput,
    /// A note names what is not known.
    UnknownNoteName,
    /// INPUT or OUTPUT names what its reader cannot see.
    OutputNamesLocal,
    /// A clock of a wrong number of parts.
    ClockLength,
    /// Two units of one name, or a unit named as an intrinsic function or a block.
    UnitTwice,
    /// A call of a unit that the deck has not.
    UnknownUnit,
    /// A unit calls itself, perhaps through others.
    Recursion,
    /// The actuals do not match the dummies.
    BadArguments,
    /// A smashed dummy gets an actual that is no bare name.
    SmashedNotName,
    /// What a smashed dummy gets stands in another actual too.
    SmashedTwice,
    /// A call changes a COMMON entity by two ways.
    SmashedCommon,
    /// A caller lacks a COMMON block of its callee.
    BlockMissing,
    /// A FUNCTION smashes what its caller sees.
    FunctionSmashes,
    /// The deck has too many paths.
    ManyPaths,
    /// The deck has too many conditions.
    ManyConditions,
    /// The conditions of the deck weigh too much.
    Heavy,
    /// A unit changes a name that gives a dimension.
    DimensionSmashed,
    /// The statements of a block IF are out of order.
    BadBlockIf,
}

impl Rule {
    /// The rule's number, 1 to 50.
    pub fn number(&self) -> u32
        ensures { result ≡ rule_number self.now }
    {
        match self {
            Rule::TooLong => 1,
            Rule::BadByte => 2,
            Rule::BadLabel => 3,
            Rule::NoInitial => 4,
            Rule::ManyCards => 5,
            Rule::BadNoteCard => 6,
            Rule::Excluded(_) => 7,
            Rule::BadStatement => 8,
            Rule::RealConstant => 9,
            Rule::BigNumber => 10,
            Rule::TooDeep => 11,
            Rule::StatementOrder => 12,
            Rule::NoHead => 13,
            Rule::NoEnd => 14,
            Rule::NameTwice => 15,
            Rule::ImplicitReal => 16,
            Rule::BadDimension => 17,
            Rule::BadUse => 18,
            Rule::BadType => 19,
            Rule::BadSubscript => 20,
            Rule::LabelTwice => 21,
            Rule::NoLabel => 22,
            Rule::BadResult => 23,
            Rule::BlocksDiffer => 24,
            Rule::BadAdjustable => 25,
            Rule::BadLastOfDo => 26,
            Rule::CrossedDo => 27,
            Rule::JumpIntoDo => 28,
            Rule::DoSmashed => 29,
            Rule::FallsOffEnd => 30,
            Rule::UncutCycle => 31,
            Rule::BadNote => 32,
            Rule::NoInputOrOutput => 33,
            Rule::UnknownNoteName => 34,
            Rule::OutputNamesLocal => 35,
            Rule::ClockLength => 36,
            Rule::UnitTwice => 37,
            Rule::UnknownUnit => 38,
            Rule::Recursion => 39,
            Rule::BadArguments => 40,
            Rule::SmashedNotName => 41,
            Rule::SmashedTwice => 42,
            Rule::SmashedCommon => 43,
            Rule::BlockMissing => 44,
            Rule::FunctionSmashes => 45,
            Rule::ManyPaths => 46,
            Rule::ManyConditions => 47,
            Rule::Heavy => 48,
            Rule::DimensionSmashed => 49,
            Rule::BadBlockIf => 50,
        }
    }

    /// The rule's name, as the variant is called.
    pub fn name(&self) -> &'static [u8]
        ensures { result.now ≡ rule_name self.now }
    {
        match self {
            Rule::TooLong => b"TooLong",
            Rule::BadByte => b"BadByte",
            Rule::BadLabel => b"BadLabel",
            Rule::NoInitial => b"NoInitial",
            Rule::ManyCards => b"ManyCards",
            Rule::BadNoteCard => b"BadNoteCard",
            Rule::Excluded(_) => b"Excluded",
            Rule::BadStatement => b"BadStatement",
            Rule::RealConstant => b"RealConstant",
            Rule::BigNumber => b"BigNumber",
            Rule::TooDeep => b"TooDeep",
            Rule::StatementOrder => b"StatementOrder",
            Rule::NoHead => b"NoHead",
            Rule::NoEnd => b"NoEnd",
            Rule::NameTwice => b"NameTwice",
            Rule::ImplicitReal => b"ImplicitReal",
            Rule::BadDimension => b"BadDimension",
            Rule::BadUse => b"BadUse",
            Rule::BadType => b"BadType",
            Rule::BadSubscript => b"BadSubscript",
            Rule::LabelTwice => b"LabelTwice",
            Rule::NoLabel => b"NoLabel",
            Rule::BadResult => b"BadResult",
            Rule::BlocksDiffer => b"BlocksDiffer",
            Rule::BadAdjustable => b"BadAdjustable",
            Rule::BadLastOfDo => b"BadLastOfDo",
            Rule::CrossedDo => b"CrossedDo",
            Rule::JumpIntoDo => b"JumpIntoDo",
            Rule::DoSmashed => b"DoSmashed",
            Rule::FallsOffEnd => b"FallsOffEnd",
            Rule::UncutCycle => b"UncutCycle",
            Rule::BadNote => b"BadNote",
            Rule::NoInputOrOutput => b"NoInputOrOutput",
            Rule::UnknownNoteName => b"UnknownNoteName",
            Rule::OutputNamesLocal => b"OutputNamesLocal",
            Rule::ClockLength => b"ClockLength",
            Rule::UnitTwice => b"UnitTwice",
            Rule::UnknownUnit => b"UnknownUnit",
            Rule::Recursion => b"Recursion",
            Rule::BadArguments => b"BadArguments",
            Rule::SmashedNotName => b"SmashedNotName",
            Rule::SmashedTwice => b"SmashedTwice",
            Rule::SmashedCommon => b"SmashedCommon",
            Rule::BlockMissing => b"BlockMissing",
            Rule::FunctionSmashes => b"FunctionSmashes",
            Rule::ManyPaths => b"ManyPaths",
            Rule::ManyConditions => b"ManyConditions",
            Rule::Heavy => b"Heavy",
            Rule::DimensionSmashed => b"DimensionSmashed",
            Rule::BadBlockIf => b"BadBlockIf",
        }
    }
}
