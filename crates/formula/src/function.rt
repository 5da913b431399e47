// The functions of terms.
ghost use Rattle.std.specs.Prelude.{◌≡◌, Some, IfSome};
ghost use Rattle.formula.specs.Functions.{name_of, arity_of, fits_count};
ghost use Rattle.formula.specs.Reading.{all_built_ins, built_in_among};

/// The functions that every term may use. `docs/FORMULAS.md` says what each is worth.
#[derive(Clone, Copy, Debug, PartialEq, Eq, Hash)]
pub enum BuiltIn {
    And,
    Or,
    Not,
    Implies,
    If,
    Equal,
    Plus,
    Difference,
    Times,
    Negative,
    Quotient,
    Remainder,
    Absolute,
    Maximum,
    Minimum,
    Less,
    AtMost,
    Element,
    Put,
    Size,
    Defined,
    IntegerCell,
    LogicalCell,
    IntegerCells,
    LogicalCells,
    Undefined,
    Blank,
}

/// A function of a term: a built-in one, or the definition of that number, counted from 1.
#[derive(Clone, Copy, Debug, PartialEq, Eq, Hash)]
pub enum Func {
    BuiltIn(BuiltIn),
    Defined(usize),
}

/// How many arguments a function takes: just so many, or one or more.
#[derive(Clone, Copy, Debug, PartialEq, Eq)]
pub enum Arity {
    Exactly(usize),
    OneOrMore,
}

impl Arity {
    /// Whether that is a right number of arguments.
    pub fn fits(self, count: usize) -> bool
        ensures { result ≡ fits_count self count }
    {
        match self {
            Arity::Exactly(wanted) => count == wanted,
            Arity::OneOrMore => 0 < count,
        }
    }
}

/// The built-in functions, each once.
static ALL: [BuiltIn; 27] = [
    BuiltIn::And,
    BuiltIn::Or,
    BuiltIn::Not,
    BuiltIn::Implies,
    BuiltIn::If,
    BuiltIn::Equal,
    BuiltIn::Plus,
    BuiltIn::Difference,
    BuiltIn::Times,
    BuiltIn::Negative,
    BuiltIn::Quotient,
    BuiltIn::Remainder,
    BuiltIn::Absolute,
    BuiltIn::Maximum,
    BuiltIn::Minimum,
    BuiltIn::Less,
    BuiltIn::AtMost,
    BuiltIn::Element,
    BuiltIn::Put,
    BuiltIn::Size,
    BuiltIn::Defined,
    BuiltIn::IntegerCell,
    BuiltIn::LogicalCell,
    BuiltIn::IntegerCells,
    BuiltIn::LogicalCells,
    BuiltIn::Undefined,
    BuiltIn::Blank,
];

impl BuiltIn {
    /// The function's name in a term.
    pub fn name(self) -> &'static [u8]
        ensures { result.now ≡ name_of self }
    {
        match self {
            BuiltIn::And => b"AND",
            BuiltIn::Or => b"OR",
            BuiltIn::Not => b"NOT",
            BuiltIn::Implies => b"IMPLIES",
            BuiltIn::If => b"IF",
            BuiltIn::Equal => b"EQUAL",
            BuiltIn::Plus => b"ZPLUS",
            BuiltIn::Difference => b"ZDIFF",
            BuiltIn::Times => b"ZTIMES",
            BuiltIn::Negative => b"ZNEG",
            BuiltIn::Quotient => b"ZQUO",
            BuiltIn::Remainder => b"ZREM",
            BuiltIn::Absolute => b"ZABS",
            BuiltIn::Maximum => b"ZMAX",
            BuiltIn::Minimum => b"ZMIN",
            BuiltIn::Less => b"ZLESSP",
            BuiltIn::AtMost => b"ZLEQ",
            BuiltIn::Element => b"ELT",
            BuiltIn::Put => b"PUT",
            BuiltIn::Size => b"SIZE",
            BuiltIn::Defined => b"DEFINED",
            BuiltIn::IntegerCell => b"CELLI",
            BuiltIn::LogicalCell => b"CELLL",
            BuiltIn::IntegerCells => b"CELLSI",
            BuiltIn::LogicalCells => b"CELLSL",
            BuiltIn::Undefined => b"UNDEF",
            BuiltIn::Blank => b"BLANK",
        }
    }

    /// How many arguments the function takes.
    pub fn arity(self) -> Arity
        ensures { result ≡ arity_of self }
    {
        match self {
            BuiltIn::And | BuiltIn::Or => Arity::OneOrMore,
            BuiltIn::Undefined => Arity::Exactly(0),
            BuiltIn::Not
            | BuiltIn::Negative
            | BuiltIn::Absolute
            | BuiltIn::Size
            | BuiltIn::Defined
            | BuiltIn::LogicalCell
            | BuiltIn::Blank => Arity::Exactly(1),
            BuiltIn::Implies
            | BuiltIn::Equal
            | BuiltIn::Plus
            | BuiltIn::Difference
            | BuiltIn::Times
            | BuiltIn::Quotient
            | BuiltIn::Remainder
            | BuiltIn::Maximum
            | BuiltIn::Minimum
            | BuiltIn::Less
            | BuiltIn::AtMost
            | BuiltIn::Element
            | BuiltIn::LogicalCells => Arity::Exactly(2),
            BuiltIn::If | BuiltIn::Put | BuiltIn::IntegerCell => Arity::Exactly(3),
            BuiltIn::IntegerCells => Arity::Exactly(4),
        }
    }

    /// The function with that name. No two have one name, and each is found by its own.
    pub fn named(bytes: &[u8]) -> Option<BuiltIn>
        ensures named { result ≡ built_in_among all_built_ins bytes.now }
        ensures each { (f : BuiltIn) → built_in_among all_built_ins (name_of f) ≡ Some f }
        ensures found { IfSome result (λ f. name_of f ≡ bytes.now) }
    {
        named_among(&ALL, bytes)
    }
}

/// The first of these functions with that name.
fn named_among(functions: &[BuiltIn], name: &[u8]) -> Option<BuiltIn>
    ensures { result ≡ built_in_among functions.now name.now }
{
    for f in functions {
        if f.name() == name {
            return Some(*f);
        }
    }
    None
}
