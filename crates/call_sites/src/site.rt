// A call in the text.
ghost use Rattle.std.specs.Prelude.{◌≡◌};

use fort_syntax::{Expr, Name};
use std::marker::Model;

/// A call: whether it is a reference to a FUNCTION or a CALL, the called name, and the actuals, which stay in the text.
#[derive(Drop)]
pub struct Site<'a> {
    reference: bool,
    callee: Name,
    actuals: &'a [Expr],
}

impl<'a> Model for Site<'a> {
    ghost use Rattle.fort_model.specs.Calls.{CallSite};
    ghost use Rattle.fort_syntax.specs.contracts.expr.Expr as expr;
    ghost use Rattle.std.specs.Coded.{codes};

    ghost Value = { CallSite };

    ghost coded = { Prim.hlevel (codes, expr.the_row.coded) };

    ghost view = { λ s. record { reference = s.reference; callee = s.callee; actuals = s.actuals.now } };
}

impl<'a> Site<'a> {
    pub(crate) fn new(reference: bool, callee: Name, actuals: &'a [Expr]) -> Site<'a>
        ensures { result ≡ record { reference = reference; callee = callee; actuals = actuals.now } }
    {
        Site {
            reference,
            callee,
            actuals,
        }
    }

    /// Whether it is a reference to a FUNCTION.
    pub fn is_reference(&self) -> bool
        ensures { result ≡ self.now.reference }
    {
        self.reference
    }

    /// The called name.
    pub fn callee(&self) -> Name
        ensures { result ≡ self.now.callee }
    {
        self.callee
    }

    /// The actuals in order.
    pub fn actuals(&self) -> &'a [Expr]
        ensures { result.now ≡ self.now.actuals }
    {
        self.actuals
    }
}
