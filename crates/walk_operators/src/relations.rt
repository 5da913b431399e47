// Tests of two values.
ghost use Rattle.std.specs.Prelude.{◌≡◌, ℕ, IfOk};
ghost use Rattle.formula.specs.Pool.{Grows, IsIn, tree_of};
ghost use Rattle.fort_syntax.specs.declared.unit.Unit.{Unit as Routine};
ghost use Rattle.fort_model.specs.Conditions.{sight};
ghost use Rattle.fort_model.specs.Program.{Program};
ghost use Rattle.fort_model.specs.Senses.{of_terms};
ghost use Rattle.walk_operators.specs.Operators.{tested};

use edge_io::NoMemory;
use formula::{TermId, TermPool};
use fort_syntax::RelOp;
use walk_terms::{both, choice, relation};

/// A test of two values, which comes to a truth value: a relation, `.AND.` or `.OR.`
#[derive(Clone, Copy, Debug)]
pub enum Test {
    Relation(RelOp),
    And,
    Or,
}

/// The truth value of a test.
pub(crate) fn tested(
    pool: &mut TermPool,
    test: Test,
    a: TermId,
    b: TermId,
) -> Result<TermId, NoMemory>
    requires a { IsIn pool.old a }
    requires b { IsIn pool.old b }
    ensures grows { Grows pool.old pool.new }
    ensures is_in { IfOk result (λ id. IsIn pool.new id) }
    ensures tree { IfOk result (λ id. (p : Program) (i : ℕ) (u : Routine)
        → tree_of pool.new id ≡ tested (sight of_terms p i u) test (tree_of pool.old a)
        (tree_of pool.old b)) }
{
    match test {
        Test::Relation(op) => relation(pool, op, a, b),
        Test::And => both(pool, a, b),
        Test::Or => choice(pool, a, b),
    }
}
