// Checks of selectors, and of the value of a FUNCTION.
ghost use Rattle.std.specs.Prelude.{◌≡◌, IfOk, OnOk};
ghost use Rattle.formula.specs.Pool.{Grows, IsIn, tree_of};
ghost use Rattle.fort_syntax.specs.declared.condition.Kind.TheVariants.{ChoiceCheck, ResultCheck};
ghost use Rattle.fort_model.specs.Senses.{is_defined, lies_from_to, natural as natural_tree, of_terms};
ghost use Rattle.fort_model.specs.WalkExpr.{checked};
ghost use Rattle.fort_model.specs.WalkStmt.{counts_label};
ghost use Rattle.walk_state.specs.Moments.{Follows, IsWalk, moment};
ghost use Rattle.walk_values.specs.Parts.{Does};

use edge_io::NoMemory;
use formula::{TermId, TermPool};
use fort_syntax::{Kind, Name};
use walk_state::Walk;
use walk_terms::{between, defined, natural};

/// A number counts one of so many labels.
fn counts(pool: &mut TermPool, labels: u64, number: TermId) -> Result<TermId, NoMemory>
    requires { IsIn pool.old number }
    ensures grows { Grows pool.old pool.new }
    ensures is_in { IfOk result (λ id. IsIn pool.new id) }
    ensures tree { IfOk result (λ id. tree_of pool.new id ≡ lies_from_to of_terms
        (natural_tree of_terms 1) (natural_tree of_terms labels) (tree_of pool.old number)) }
{
    let least = natural(pool, 1)?;
    let most = natural(pool, labels)?;
    let within = between(pool, least, number, most)?;
    Ok(within)
}

/// The number of a computed GO TO must count one of its labels.
pub fn check_label(walk: &mut Walk, card: u32, labels: u64, number: TermId) -> Result<(), NoMemory>
    requires well { IsWalk walk.old }
    requires number { IsIn walk.old.pool number }
    ensures on { Follows walk.old walk.new }
    ensures did { OnOk result (Does (moment walk.old) (λ w. checked w ChoiceCheck card
        (counts_label w labels (tree_of walk.old.pool number))) (moment walk.new) tt) }
{
    let Ok(goal) = counts(&mut walk.pool, labels, number) else {
        return Err(NoMemory);
    };
    walk.check(Kind::ChoiceCheck, card, goal)?;
    Ok(())
}

/// The value of a FUNCTION must be defined where it returns.
pub fn check_result(walk: &mut Walk, card: u32, own: &Name) -> Result<(), NoMemory>
    requires { IsWalk walk.old }
    ensures on { Follows walk.old walk.new }
    ensures did { OnOk result (Does (moment walk.old) (λ w. checked w ResultCheck card
        (is_defined of_terms ((moment walk.old).now own.now))) (moment walk.new) tt) }
{
    let value = walk.term(own)?;
    let Ok(goal) = defined(&mut walk.pool, value) else {
        return Err(NoMemory);
    };
    walk.check(Kind::ResultCheck, card, goal)?;
    Ok(())
}
