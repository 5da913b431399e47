// Computed GO TOs.
ghost use Rattle.std.specs.Prelude.{◌≡◌, length, IfOk, OnOk};
ghost use Rattle.formula.specs.Pool.{Grows, IsIn, tree_of};
ghost use Rattle.fort_syntax.specs.declared.dialect.Dialect.TheVariants.{SeventySeven};
ghost use Rattle.fort_model.specs.Graphs.{IsComputedTarget};
ghost use Rattle.fort_model.specs.Senses.{lies_from_to, natural as natural_tree, negated as negated_tree, of_terms};
ghost use Rattle.fort_model.specs.WalkStmt as forms;
ghost use Rattle.walk_setting.specs.Settings.{PerformsIn};
ghost use Rattle.walk_state.specs.Moments.{Follows, IsWalk, moment};
ghost use Rattle.walk_values.specs.Parts.{Does};
ghost use Rattle.walk_choices.specs.Choices as choices_of;

use edge_io::NoMemory;
use formula::{TermId, TermPool};
use fort_syntax::{Dialect, Name};
use walk_facts::{check_label, read_name, take_equals};
use walk_flow::Standing;
use walk_state::Walk;
use walk_terms::{between, natural, negated};
use walk_tests::behind;

// A number counts none of so many labels.
fn no_label(pool: &mut TermPool, labels: u64, number: TermId) -> Result<TermId, NoMemory>
    requires { IsIn pool.old number }
    ensures grows { Grows pool.old pool.new }
    ensures is_in { IfOk result (λ id. IsIn pool.new id) }
    ensures tree { IfOk result (λ id. tree_of pool.new id ≡ negated_tree of_terms
        (lies_from_to of_terms (natural_tree of_terms 1) (natural_tree of_terms labels)
        (tree_of pool.old number))) }
{
    let least = natural(pool, 1)?;
    let most = natural(pool, labels)?;
    let within = between(pool, least, number, most)?;
    let none = negated(pool, within)?;
    Ok(none)
}

// A number counts none of so many labels.
fn take_no_label(walk: &mut Walk, labels: u64, number: TermId) -> Result<(), NoMemory>
    requires well { IsWalk walk.old }
    requires number { IsIn walk.old.pool number }
    ensures on { Follows walk.old walk.new }
    ensures did { OnOk result (Does (moment walk.old) (λ w. forms.taken w
        (negated_tree w.sense (forms.counts_label w labels (tree_of walk.old.pool number))))
        (moment walk.new) tt) }
{
    let Ok(fact) = no_label(&mut walk.pool, labels, number) else {
        return Err(NoMemory);
    };
    walk.take(fact)
}

// Without 77 the number must count a label.
fn check_choice(
    walk: &mut Walk,
    dialect: Dialect,
    card: u32,
    labels: u64,
    number: TermId,
) -> Result<(), NoMemory>
    requires well { IsWalk walk.old }
    requires number { IsIn walk.old.pool number }
    ensures on { Follows walk.old walk.new }
    ensures did { OnOk result (Does (moment walk.old) (λ w. forms.choice_check w dialect card labels
        (tree_of walk.old.pool number)) (moment walk.new) tt) }
{
    match dialect {
        Dialect::Common => check_label(walk, card, labels, number),
        Dialect::SeventySeven => Ok(()),
    }
}

// Under 77 the choice behind the last label goes on behind the statement.
fn pass_labels(
    walk: &mut Walk,
    at: &Standing,
    labels: &[u32],
    number: TermId,
    choices: &[usize],
) -> Result<(), NoMemory>
    requires well { IsWalk walk.old }
    requires number { IsIn walk.old.pool number }
    requires target { IsComputedTarget SeventySeven at.now.flow.now.setting.now.book.now.unit.now
        at.now.flow.now.graph.now.forks at.now.point labels.now at.now.target }
    ensures on { Follows walk.old walk.new }
    ensures did { OnOk result (PerformsIn walk.old.pool at.now.flow.now.setting.now
        (moment walk.old) (λ w. choices_of.passed w at.now.card (moment walk.old).now at.now.point
        (length labels.now) (tree_of walk.old.pool number) choices.now) (moment walk.new)) }
{
    take_no_label(walk, labels.len() as u64, number)?;
    let Some(target) = at.turn(labels.len()) else {
        return Ok(());
    };
    behind(walk, &at.to(target), choices)
}

// Where a computed GO TO goes, by its first choice.
fn choose(
    walk: &mut Walk,
    at: &Standing,
    labels: &[u32],
    number: TermId,
    choices: &[usize],
) -> Result<(), NoMemory>
    requires well { IsWalk walk.old }
    requires number { IsIn walk.old.pool number }
    requires target { IsComputedTarget at.now.flow.now.setting.now.scene.now.dialect
        at.now.flow.now.setting.now.book.now.unit.now at.now.flow.now.graph.now.forks at.now.point
        labels.now at.now.target }
    ensures on { Follows walk.old walk.new }
    ensures did { OnOk result (PerformsIn walk.old.pool at.now.flow.now.setting.now
        (moment walk.old) (λ w. forms.selected w at.now.card at.now.point (moment walk.old).now
        (length labels.now) (tree_of walk.old.pool number) choices.now) (moment walk.new)) }
{
    let [choice, more @ ..] = choices else {
        return Ok(());
    };
    match at.flow.setting.scene.dialect {
        Dialect::Common => take_equals(walk, number, *choice as u64),
        Dialect::SeventySeven => {
            if *choice == labels.len() + 1 {
                return pass_labels(walk, at, labels, number, more);
            }
            take_equals(walk, number, *choice as u64)
        }
    }
}

/// A computed GO TO with some labels: the number is read, and goes to the label that it counts.
pub fn select(
    walk: &mut Walk,
    at: &Standing,
    labels: &[u32],
    selector: &Name,
    choices: &[usize],
) -> Result<(), NoMemory>
    requires well { IsWalk walk.old }
    requires target { IsComputedTarget at.now.flow.now.setting.now.scene.now.dialect
        at.now.flow.now.setting.now.book.now.unit.now at.now.flow.now.graph.now.forks at.now.point
        labels.now at.now.target }
    ensures on { Follows walk.old walk.new }
    ensures did { OnOk result (PerformsIn walk.old.pool at.now.flow.now.setting.now
        (moment walk.old) (λ w. choices_of.selected w at.now.card (moment walk.old).now
        at.now.point selector.now (length labels.now) choices.now) (moment walk.new)) }
{
    let number = read_name(walk, at.card, selector)?;
    let dialect = at.flow.setting.scene.dialect;
    check_choice(walk, dialect, at.card, labels.len() as u64, number)?;
    choose(walk, at, labels, number, choices)
}
