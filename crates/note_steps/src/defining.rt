// The definitions of notes.
ghost use Rattle.std.specs.Prelude.{◌≡◌, ◌≢◌, ◌++◌, ◌∷◌, [], None, Some, IfOk};
ghost use Rattle.formula.specs.Adding.{AreAdded, IsBodyIn, adding_fault};
ghost use Rattle.formula.specs.Headings.{headings_of};
ghost use Rattle.formula.specs.Worth.{body_of};
ghost use Rattle.formula.specs.declared.definition_fault.DefFault.{DefFault};
ghost use Rattle.fort_notes.specs.Judging.{rule_of_definition, rule_if};
ghost use Rattle.note_reading.specs.NoteTrees.{form_tree, IsFormIn};
ghost use Rattle.note_steps.specs.Steps.{defined_broken, definitions_in};

use edge_io::NoMemory;
use formula::{DefFault, Definition, Definitions, TermPool};
use fort_syntax::{Plain, Rule};
use note_reading::NoteForm;
use std::alloc::Global;

// The rule that a refusal of a definition breaks.
fn rule_of(fault: DefFault) -> Result<Rule, NoMemory>
    ensures rule { IfOk result (λ r. r ≡ rule_of_definition fault) }
    ensures memory { IfOk result (λ r. fault ≢ DefFault.NoMemory) }
{
    match fault {
        DefFault::UnknownFunction => Ok(Rule::UnknownNoteName),
        DefFault::FreeName => Ok(Rule::UnknownNoteName),
        DefFault::KnownName => Ok(Rule::BadNote),
        DefFault::BadCount => Ok(Rule::BadNote),
        DefFault::BadRecursion => Ok(Rule::BadNote),
        DefFault::SameParameter => Ok(Rule::BadNote),
        DefFault::NoMemory => Err(NoMemory),
    }
}

// Adds a definition, or answers the rule that it breaks.
fn add(
    alloc: Global,
    pool: &TermPool,
    definitions: &mut Definitions,
    d: &Definition,
) -> Result<Option<Rule>, NoMemory>
    requires { IsBodyIn pool.now d.now.body }
    ensures rule { IfOk result (λ r. r ≡ rule_if (adding_fault (headings_of definitions.old)
        d.now.name d.now.params (body_of pool.now d.now.body))) }
    ensures defined { IfOk result (λ r. r ≡ None → definitions.new ≡ definitions.old ++ d.now ∷ []) }
    ensures added { IfOk result (λ r. r ≡ None → AreAdded pool.now definitions.old
        → AreAdded pool.now definitions.new) }
{
    let Ok(params) = d.params.copied(alloc) else {
        return Err(NoMemory);
    };
    match definitions.add(pool, d.name, params, d.body) {
        Ok(()) => Ok(None),
        Err(fault) => match rule_of(fault) {
            Ok(rule) => Ok(Some(rule)),
            Err(_) => Err(NoMemory),
        },
    }
}

// Adds the definition of a note, or answers the rule that it breaks.
pub(crate) fn define(
    alloc: Global,
    pool: &TermPool,
    definitions: &mut Definitions,
    form: &NoteForm,
) -> Result<Option<Rule>, NoMemory>
    requires { IsFormIn pool.now form.now }
    ensures rule { IfOk result (λ r. r ≡ defined_broken (headings_of definitions.old)
        (form_tree pool.now form.now)) }
    ensures defined { IfOk result (λ r. r ≡ None → definitions.new ≡ definitions.old ++
        definitions_in form.now) }
    ensures added { IfOk result (λ r. r ≡ None → AreAdded pool.now definitions.old
        → AreAdded pool.now definitions.new) }
{
    match form {
        NoteForm::Definition(d) => add(alloc, pool, definitions, d),
        NoteForm::Bound(_) => Ok(None),
        NoteForm::Input(_) => Ok(None),
        NoteForm::Output(_) => Ok(None),
        NoteForm::Assertion(_) => Ok(None),
        NoteForm::Run(_) => Ok(None),
        NoteForm::Try(_) => Ok(None),
        NoteForm::Proof(_) => Ok(None),
    }
}
