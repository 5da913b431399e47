// Instructions.
use fort_syntax::{BinOp, RelOp};

/// An intrinsic function.
#[derive(Clone, Copy, Debug)]
pub enum Function {
    /// `IABS`
    Absolute,
    /// `MOD`
    Modulo,
    /// `MAX0`
    Greatest,
    /// `MIN0`
    Least,
}

/// An instruction, in 24 bytes. Code works on a stack of what was taken: the cells of a name or of
/// an element, or fresh values. A slot is the number of a data name in its unit.
#[derive(Clone, Copy, Debug)]
pub enum Instr {
    /// A constant.
    Number(u64),
    /// The step of a DO that has none.
    One,
    /// A truth value.
    Truth(bool),
    /// The cells of the name of a slot.
    Place(usize),
    /// What the first cell of the name of a slot holds.
    Load(usize),
    /// What was taken is read for its value.
    Value,
    /// The sign `-`.
    Negate,
    /// `**` and its exponent.
    Raise(u8),
    /// A sum, difference, product or quotient of the two values at the top.
    Operation(BinOp),
    /// A relation between the two values at the top.
    Comparison(RelOp),
    /// `.NOT.`
    Negation,
    /// A lazy processor leaves out so many instructions where the left operand of `.AND.` is false.
    SkipFalse(usize),
    /// `.AND.`
    Both,
    /// A lazy processor leaves out so many instructions where the left operand of `.OR.` is true.
    SkipTrue(usize),
    /// `.OR.`
    Either,
    /// An element of the array of a slot, by so many subscripts.
    Array(usize, usize),
    /// An intrinsic function of so many arguments.
    BuiltIn(Function, usize),
    /// A call, by its place in the unit's table of calls.
    Refer(usize),
    /// A value is let go.
    Forget,
    /// A value is assigned to what was taken behind it.
    Assigned,
    /// The flow goes on behind a statement at a card, where no DO is to be tested, at a point.
    Go(u32, usize),
    /// DOs are tested at a card: those from a place of the unit's table of tests on.
    Tests(u32, usize),
    /// On to a point.
    Jump(usize),
    /// The carried statement, behind the next instruction, where a condition is true.
    Turn,
    /// On to one of three points by a sign; they stand in the unit's table of targets from a place on.
    Signs(usize),
    /// On to one of two points: where a condition is true, and where it is false.
    Ways(usize, usize),
    /// On to one of several points by a number; from a place of the unit's table of targets on, so many.
    Choose(usize, usize),
    /// A DO with the variable of a slot begins by its three values, and goes on at a point.
    BeginDo(usize, usize),
    /// The value of a FUNCTION must be defined.
    ResultOf,
    /// What no deck has.
    Stop,
}
