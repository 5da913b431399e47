// The laws of operands.
ghost use Rattle.walk_operands.specs.Laws.{OperandsHaveTerms, OperandsJoin, OperandsStay};

/// Operands whose terms are in a pool stand for the same where the pool grew. It does nothing.
pub fn operands_stay()
    ensures { OperandsStay }
{}

/// Operands with one more behind them. It does nothing.
pub fn operands_join()
    ensures { OperandsJoin }
{}

/// The terms of operands are of their pool, and stand for what the operands do. It does nothing.
pub fn operands_have_terms()
    ensures { OperandsHaveTerms }
{}
