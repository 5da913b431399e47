// The rules that forms break by the names in them.
ghost use Rattle.std.specs.Prelude.{◌≡◌, List, length, Option};
ghost use Rattle.std.specs.List.{list_all, flat_map};
ghost use Rattle.formula.specs.Adding.{IsBodyIn};
ghost use Rattle.formula.specs.Pool.{AllBelow};
ghost use Rattle.formula.specs.Worth.{body_of};
ghost use Rattle.fort_syntax.specs.declared.unit.Unit.{Unit};
ghost use Rattle.fort_notes.specs.Forms.{input, output};
ghost use Rattle.fort_notes.specs.Judging.{Judged, names_broken, has_no_old, body_terms, step_terms};
ghost use Rattle.note_parts.specs.Answers.{trees_of};
ghost use Rattle.note_forms.specs.FormTrees.{assertion_of, IsAssertedIn, AreStepsIn, IsStepIn, step_tree, steps_of};
ghost use Rattle.note_names.specs.NameTests.{AreRolesOf};

use crate::walk::{all_pass, passes};
use crate::{NameTest, Roles};
use formula::{Body, TermId, TermPool};
use fort_notes::Step;
use fort_syntax::Rule;
use note_forms::Asserted;

#[tactic(auto, using(crate::proofs::Tests::known_names, crate::proofs::Tests::none_own))]
/// The rule that an INPUT breaks by its names.
pub fn input_broken(pool: &TermPool, roles: &Roles, ids: &[TermId]) -> Option<Rule>
    requires { AllBelow (length pool.now) ids.now }
    ensures { (done : List Judged) (u : Option Unit) → AreRolesOf u roles.now
        → result ≡ names_broken done u (input (trees_of pool.now ids.now)) }
{
    if !all_pass(pool, NameTest::NoOld, roles, ids) {
        return Some(Rule::BadNote);
    }
    if !all_pass(pool, NameTest::KnownNames, roles, ids) {
        return Some(Rule::UnknownNoteName);
    }
    if !all_pass(pool, NameTest::NoOwn, roles, ids) {
        return Some(Rule::OutputNamesLocal);
    }
    None
}

#[tactic(auto, using(crate::proofs::Tests::good_old, crate::proofs::Tests::known_names, crate::proofs::Tests::none_local))]
/// The rule that an OUTPUT breaks by its names.
pub fn output_broken(pool: &TermPool, roles: &Roles, ids: &[TermId]) -> Option<Rule>
    requires { AllBelow (length pool.now) ids.now }
    ensures { (done : List Judged) (u : Option Unit) → AreRolesOf u roles.now
        → result ≡ names_broken done u (output (trees_of pool.now ids.now)) }
{
    if !all_pass(pool, NameTest::GoodOld, roles, ids) {
        return Some(Rule::BadNote);
    }
    if !all_pass(pool, NameTest::KnownNames, roles, ids) {
        return Some(Rule::UnknownNoteName);
    }
    if !all_pass(pool, NameTest::NoLocal, roles, ids) {
        return Some(Rule::OutputNamesLocal);
    }
    None
}

/// The rule that an ASSERT breaks by its names.
pub fn assertion_broken(pool: &TermPool, roles: &Roles, asserted: &Asserted) -> Option<Rule>
    requires { IsAssertedIn pool.now asserted.now }
    ensures { (done : List Judged) (u : Option Unit) → AreRolesOf u roles.now
        → result ≡ names_broken done u (assertion_of pool.now asserted.now) }
{
    let terms = asserted.terms.as_slice();
    let clock = asserted.clock.as_slice();
    if !all_pass(pool, NameTest::GoodOld, roles, terms) {
        return Some(Rule::BadNote);
    }
    if !all_pass(pool, NameTest::GoodOld, roles, clock) {
        return Some(Rule::BadNote);
    }
    if !all_pass(pool, NameTest::KnownNames, roles, terms) {
        return Some(Rule::UnknownNoteName);
    }
    if !all_pass(pool, NameTest::KnownNames, roles, clock) {
        return Some(Rule::UnknownNoteName);
    }
    None
}

/// Whether no entry value stands in the terms of a definition.
pub fn body_has_no_old(pool: &TermPool, roles: &Roles, body: Body) -> bool
    requires { IsBodyIn pool.now body }
    ensures { result ≡ list_all has_no_old (body_terms (body_of pool.now body)) }
{
    match body {
        Body::Plain(t) => passes(pool, NameTest::NoOld, roles, t),
        Body::Counting(base, step) => {
            passes(pool, NameTest::NoOld, roles, base) && passes(pool, NameTest::NoOld, roles, step)
        }
    }
}

// Whether no entry value stands in the terms of a step.
fn step_has_no_old(pool: &TermPool, roles: &Roles, step: &Step) -> bool
    requires { IsStepIn pool.now step.now }
    ensures { result ≡ list_all has_no_old (step_terms (step_tree pool.now step.now)) }
{
    match step {
        Step::Cases(t) | Step::Unfold(t) | Step::Branch(t) => {
            passes(pool, NameTest::NoOld, roles, *t)
        }
        Step::Linear(a, b) => {
            passes(pool, NameTest::NoOld, roles, *a) && passes(pool, NameTest::NoOld, roles, *b)
        }
        _ => true,
    }
}

/// Whether no entry value stands in the terms of some steps.
pub fn steps_have_no_old(pool: &TermPool, roles: &Roles, steps: &[Step]) -> bool
    requires { AreStepsIn pool.now steps.now }
    ensures { result ≡ list_all has_no_old (flat_map step_terms (steps_of pool.now steps.now)) }
{
    let mut left = steps.len();
    while left > 0 {
        left -= 1;
        if !step_has_no_old(pool, roles, &steps[left]) {
            return false;
        }
    }
    true
}
