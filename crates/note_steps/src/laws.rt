// The step of one note is the judgement of it.
ghost use Rattle.std.specs.Prelude.{List};
ghost use Rattle.fort_syntax.specs.declared.deck.Deck.{Deck};
ghost use Rattle.fort_syntax.specs.declared.deck.Placed.{Placed};
ghost use Rattle.formula.specs.declared.definition.Definition.{Definition};
ghost use Rattle.note_steps.specs.Steps.{JudgesBy};
ghost use Rattle.note_steps.specs.declared.taken.Taken.{Taken};

/// A note behind others is judged as what was gathered of these tells.
pub fn notes_are_judged()
    ensures { (deck : Deck) (t : Taken) (ds : List Definition) (n : Placed) → JudgesBy deck t ds n }
{}
