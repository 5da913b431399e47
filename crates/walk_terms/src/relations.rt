// Operations and relations between integers.
ghost use Rattle.std.specs.Prelude.{◌≡◌, ℕ, IfOk};
ghost use Rattle.formula.specs.Pool.{Grows, IsIn, tree_of};
ghost use Rattle.fort_syntax.specs.declared.unit.Unit.{Unit as Routine};
ghost use Rattle.fort_model.specs.Conditions.{sight};
ghost use Rattle.fort_model.specs.Program.{Program};
ghost use Rattle.fort_model.specs.Senses.{of_terms, make2};
ghost use Rattle.fort_model.specs.WalkExpr as walks;
ghost use Rattle.walk_terms.specs.Operations.{function_of};

use crate::plain_terms::negated;
use edge_io::NoMemory;
use formula::{BuiltIn, TermId, TermPool};
use fort_syntax::{BinOp, RelOp};

/// The sum, difference, product or quotient of two numbers.
pub fn operation(pool: &mut TermPool, op: BinOp, a: TermId, b: TermId) -> Result<TermId, NoMemory>
    requires a { IsIn pool.old a }
    requires b { IsIn pool.old b }
    ensures grows { Grows pool.old pool.new }
    ensures is_in { IfOk result (λ id. IsIn pool.new id) }
    ensures tree { IfOk result (λ id. tree_of pool.new id ≡ make2 of_terms (function_of op)
        (tree_of pool.old a) (tree_of pool.old b)) }
{
    match op {
        BinOp::Add => pool.binary(BuiltIn::Plus, a, b),
        BinOp::Sub => pool.binary(BuiltIn::Difference, a, b),
        BinOp::Mul => pool.binary(BuiltIn::Times, a, b),
        BinOp::Div => pool.binary(BuiltIn::Quotient, a, b),
    }
}

/// Two numbers are apart.
fn apart(pool: &mut TermPool, a: TermId, b: TermId) -> Result<TermId, NoMemory>
    requires a { IsIn pool.old a }
    requires b { IsIn pool.old b }
    ensures grows { Grows pool.old pool.new }
    ensures is_in { IfOk result (λ id. IsIn pool.new id) }
    ensures tree { IfOk result (λ id. (p : Program) (i : ℕ) (u : Routine)
        → tree_of pool.new id ≡ walks.relation (sight of_terms p i u) RelOp.Ne (tree_of pool.old a)
        (tree_of pool.old b)) }
{
    let same = pool.binary(BuiltIn::Equal, a, b)?;
    let not = negated(pool, same)?;
    Ok(not)
}

/// A relation between two numbers.
pub fn relation(pool: &mut TermPool, op: RelOp, a: TermId, b: TermId) -> Result<TermId, NoMemory>
    requires a { IsIn pool.old a }
    requires b { IsIn pool.old b }
    ensures grows { Grows pool.old pool.new }
    ensures is_in { IfOk result (λ id. IsIn pool.new id) }
    ensures tree { IfOk result (λ id. (p : Program) (i : ℕ) (u : Routine)
        → tree_of pool.new id ≡ walks.relation (sight of_terms p i u) op (tree_of pool.old a)
        (tree_of pool.old b)) }
{
    match op {
        RelOp::Lt => pool.binary(BuiltIn::Less, a, b),
        RelOp::Le => pool.binary(BuiltIn::AtMost, a, b),
        RelOp::Eq => pool.binary(BuiltIn::Equal, a, b),
        RelOp::Ne => apart(pool, a, b),
        RelOp::Ge => pool.binary(BuiltIn::AtMost, b, a),
        RelOp::Gt => pool.binary(BuiltIn::Less, b, a),
    }
}
