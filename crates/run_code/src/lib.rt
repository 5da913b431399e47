//! Flat code of expressions and statements, and that it does what they do.
#![tactic(auto)]

ghost use Rattle.run_code.specs.Code.{CodeIsSoLong, CodeStandsBefore, ExpressionsAreTaken, StatementsArePerformed};

/// The code of an expression, before other code, takes the expression on top of the stack, and then
/// the other code goes on. It does nothing.
pub fn expressions_are_taken()
    ensures { ExpressionsAreTaken }
{}

/// The code of a statement performs the statement, and goes on at the point that its choices lead
/// to, with the stack as it was. It does nothing.
pub fn statements_are_performed()
    ensures { StatementsArePerformed }
{}

/// The code of an expression before two lists of code is its code before the first, and then the
/// second. It does nothing.
pub fn code_stands_before()
    ensures { CodeStandsBefore }
{}

/// The code of an expression before other code is as long as its size says, and the other code. It
/// does nothing.
pub fn code_is_so_long()
    ensures { CodeIsSoLong }
{}
