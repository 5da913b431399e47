// The rules that a form breaks by CLOCK and by names.
ghost use Rattle.std.specs.Prelude.{◌≡◌, ◌∷◌, [], ℕ, List, Option, cond, length};
ghost use Rattle.std.specs.List.{list_all, flat_map};
ghost use Rattle.formula.specs.Adding.{IsBodyIn};
ghost use Rattle.formula.specs.Pool.{AllBelow};
ghost use Rattle.formula.specs.Reading.{or_else};
ghost use Rattle.formula.specs.Worth.{body_of};
ghost use Rattle.fort_syntax.specs.declared.rule.Rule.{Rule};
ghost use Rattle.fort_syntax.specs.declared.unit.Unit.{Unit};
ghost use Rattle.fort_notes.specs.Forms.{input, output};
ghost use Rattle.fort_notes.specs.Judging.{Judged, first_failing, has_no_old, names_broken, body_terms, step_terms};
ghost use Rattle.note_parts.specs.Answers.{trees_of};
ghost use Rattle.note_forms.specs.FormTrees.{assertion_of, IsAssertedIn, AreStepsIn, steps_of};
ghost use Rattle.note_names.specs.NameTests.{AreRolesOf};
ghost use Rattle.note_reading.specs.NoteTrees.{form_tree, broken_by, clocks_broken, IsFormIn};

use crate::NoteForm;
use formula::{Body, TermId, TermPool};
use fort_notes::Step;
use fort_syntax::Rule;
use note_forms::Asserted;
use note_names::{
    Roles, assertion_broken, body_has_no_old, clocks, input_broken, output_broken,
    steps_have_no_old,
};

// The rule that CLOCK breaks where it stands too often.
fn clock_rule(text: &[u8], most: usize) -> Option<Rule>
    ensures { result ≡ clocks_broken text.now most }
{
    if clocks(text) <= most {
        None
    } else {
        Some(Rule::BadNote)
    }
}

// The first of two rules that is broken.
fn first(a: Option<Rule>, b: Option<Rule>) -> Option<Rule>
    ensures { result ≡ or_else a b }
{
    match a {
        Some(rule) => Some(rule),
        None => b,
    }
}

// How often CLOCK may stand in an ASSERT.
fn most_clocks(asserted: &Asserted) -> usize
    ensures { result ≡ cond asserted.now.has_clock 1 0 }
{
    if asserted.has_clock { 1 } else { 0 }
}

// The rule that entry values in a definition break.
fn body_rule(pool: &TermPool, roles: &Roles, body: Body) -> Option<Rule>
    requires { IsBodyIn pool.now body }
    ensures { result ≡ first_failing ((
      list_all has_no_old (body_terms (body_of pool.now body)),
      Rule.BadNote,
    ) ∷ []) }
{
    if body_has_no_old(pool, roles, body) {
        None
    } else {
        Some(Rule::BadNote)
    }
}

// The rule that entry values in a certificate break.
fn steps_rule(pool: &TermPool, roles: &Roles, steps: &[Step]) -> Option<Rule>
    requires { AreStepsIn pool.now steps.now }
    ensures { result ≡ first_failing
        ((list_all has_no_old (flat_map step_terms (steps_of pool.now steps.now)), Rule.BadNote)
        ∷ []) }
{
    if steps_have_no_old(pool, roles, steps) {
        None
    } else {
        Some(Rule::BadNote)
    }
}

/// The rule that a form breaks by CLOCK in the note's text and by the names in it, with the roles of
/// the names of the note's unit. Whether a definition may be added is not looked at.
pub fn broken(pool: &TermPool, roles: &Roles, text: &[u8], form: &NoteForm) -> Option<Rule>
    requires { IsFormIn pool.now form.now }
    ensures { (done : List Judged) (u : Option Unit) → AreRolesOf u roles.now
        → result ≡ broken_by done u text.now (form_tree pool.now form.now) }
{
    match form {
        NoteForm::Bound(_) | NoteForm::Run(_) | NoteForm::Try(_) => first(
            clock_rule(text, 0),
            None,
        ),
        NoteForm::Definition(d) => first(clock_rule(text, 0), body_rule(pool, roles, d.body)),
        NoteForm::Input(ids) => {
            first(
                clock_rule(text, 0),
                input_broken(pool, roles, ids.as_slice()),
            )
        }
        NoteForm::Output(ids) => {
            first(
                clock_rule(text, 0),
                output_broken(pool, roles, ids.as_slice()),
            )
        }
        NoteForm::Assertion(a) => {
            first(
                clock_rule(text, most_clocks(a)),
                assertion_broken(pool, roles, a),
            )
        }
        NoteForm::Proof(p) => {
            first(
                clock_rule(text, 0),
                steps_rule(pool, roles, p.steps.as_slice()),
            )
        }
    }
}
