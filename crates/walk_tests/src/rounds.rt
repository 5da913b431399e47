// One test of a DO.
ghost use Rattle.std.specs.Prelude.{◌≡◌, IfOk, OnOk};
ghost use Rattle.formula.specs.Pool.{IsIn, tree_of};
ghost use Rattle.formula.specs.Tree.{Tree};
ghost use Rattle.fort_model.specs.Senses.{of_terms, undefined as undefined_tree};
ghost use Rattle.fort_model.specs.WalkCalls.{Sight};
ghost use Rattle.fort_model.specs.WalkStmt as forms;
ghost use Rattle.walk_setting.specs.Settings.{DoesIn, PerformsIn};
ghost use Rattle.walk_state.specs.Moments.{Follows, IsWalk, moment, with_names};
ghost use Rattle.walk_tests.specs.Rounds as rounds;

use edge_io::NoMemory;
use formula::TermId;
use fort_syntax::{Dialect, Name};
use walk_facts::{parameter, take_at_most, take_less};
use walk_flow::DoTest;
use walk_loops::next_sum;
use walk_setting::Card;
use walk_state::Walk;
use walk_terms::undefined;

// The next value of the variable of a DO, and the last one.
#[derive(Clone, Copy)]
struct Bounds {
    next: TermId,
    last: TermId,
}

// The next value of the variable of a DO, which must be in range, and the last one.
fn bounds_of(walk: &mut Walk, card: &Card, test: &DoTest) -> Result<Bounds, NoMemory>
    requires { IsWalk walk.old }
    ensures on { Follows walk.old walk.new }
    ensures next { IfOk result (λ b. IsIn walk.new.pool b.next) }
    ensures last { IfOk result (λ b. IsIn walk.new.pool b.last) }
    ensures did { IfOk result (λ b. DoesIn walk.old.pool card.now.setting.now (moment walk.old)
        (λ w. rounds.next_and_last w card.now.number (moment walk.old).now test.now)
        (moment walk.new) (tree_of walk.new.pool b.next, tree_of walk.new.pool b.last)) }
{
    let bound = card.setting.scene.bound;
    let next = next_sum(walk, bound, card.number, &test.variable, test.step)?;
    let last = parameter(walk, bound, card.number, test.last)?;
    Ok(Bounds { next, last })
}

// A DO goes round again with the next value.
fn with_next(
    walk: &mut Walk,
    card: &Card,
    test: &DoTest,
    next: TermId,
    last: TermId,
) -> Result<(), NoMemory>
    requires well { IsWalk walk.old }
    requires next { IsIn walk.old.pool next }
    requires last { IsIn walk.old.pool last }
    ensures on { Follows walk.old walk.new }
    ensures did { OnOk result (PerformsIn walk.old.pool card.now.setting.now (moment walk.old)
        (λ w. rounds.with_next w card.now.number (moment walk.old).now test.now
        (tree_of walk.old.pool next, tree_of walk.old.pool last)) (moment walk.new)) }
{
    take_at_most(walk, next, last)?;
    walk.set(&test.variable, next)
}

/// A DO goes round again.
pub(crate) fn go_round(walk: &mut Walk, card: &Card, test: &DoTest) -> Result<(), NoMemory>
    requires { IsWalk walk.old }
    ensures on { Follows walk.old walk.new }
    ensures did { OnOk result (PerformsIn walk.old.pool card.now.setting.now (moment walk.old)
        (λ w. rounds.goes_round w card.now.number (moment walk.old).now test.now)
        (moment walk.new)) }
{
    let both = bounds_of(walk, card, test)?;
    with_next(walk, card, test, both.next, both.last)
}

// A name stands for the undefined value.
fn leave_undefined(walk: &mut Walk, variable: &Name) -> Result<(), NoMemory>
    requires { IsWalk walk.old }
    ensures on { Follows walk.old walk.new }
    ensures did { OnOk result (moment walk.new ≡ with_names (moment walk.old)
        (forms.with_name (moment walk.old).now variable.now (undefined_tree of_terms))) }
{
    let Ok(nothing) = undefined(&mut walk.pool) else {
        return Err(NoMemory);
    };
    walk.set(variable, nothing)
}

// A DO that is left leaves its variable undefined; under 77 it keeps the last sum.
fn leave_with(
    walk: &mut Walk,
    dialect: Dialect,
    variable: &Name,
    sum: TermId,
) -> Result<(), NoMemory>
    requires well { IsWalk walk.old }
    requires sum { IsIn walk.old.pool sum }
    ensures on { Follows walk.old walk.new }
    ensures did { OnOk result ((w : Sight Tree) → w.sense ≡ of_terms → moment walk.new
        ≡ with_names (moment walk.old) (forms.with_name (moment walk.old).now variable.now
        (forms.left_with w dialect (tree_of walk.old.pool sum)))) }
{
    match dialect {
        Dialect::SeventySeven => walk.set(variable, sum),
        Dialect::Common => leave_undefined(walk, variable),
    }
}

// A DO is left.
fn without_next(
    walk: &mut Walk,
    card: &Card,
    test: &DoTest,
    next: TermId,
    last: TermId,
) -> Result<(), NoMemory>
    requires well { IsWalk walk.old }
    requires next { IsIn walk.old.pool next }
    requires last { IsIn walk.old.pool last }
    ensures on { Follows walk.old walk.new }
    ensures did { OnOk result (PerformsIn walk.old.pool card.now.setting.now (moment walk.old)
        (λ w. rounds.without_next w card.now.number (moment walk.old).now test.now
        (tree_of walk.old.pool next, tree_of walk.old.pool last)) (moment walk.new)) }
{
    take_less(walk, last, next)?;
    leave_with(walk, card.setting.scene.dialect, &test.variable, next)
}

/// A DO is left.
pub(crate) fn leave(walk: &mut Walk, card: &Card, test: &DoTest) -> Result<(), NoMemory>
    requires { IsWalk walk.old }
    ensures on { Follows walk.old walk.new }
    ensures did { OnOk result (PerformsIn walk.old.pool card.now.setting.now (moment walk.old)
        (λ w. rounds.is_left w card.now.number (moment walk.old).now test.now) (moment walk.new)) }
{
    let both = bounds_of(walk, card, test)?;
    without_next(walk, card, test, both.next, both.last)
}
