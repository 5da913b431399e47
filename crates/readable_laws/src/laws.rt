// Which conditions can be read back from their text.
ghost use Rattle.readable_laws.specs.Laws.{
  ConditionsInAreReadable,
  SmallConditionsAreReadable,
  TextTellsConditions,
  UnmarkedAreMarks,
  UnmarkedInAreReadable,
};

/// `-` for each condition may stand as its mark. It does nothing.
pub fn unmarked_are_marks()
    ensures { UnmarkedAreMarks }
{}

/// The conditions of an accepted deck within the limits can be read back from their text, with the
/// definitions of the deck and with any marks: where its cards have small numbers, its statements name
/// few labels, and the INPUT of each unit has a term. It does nothing.
pub fn small_conditions_are_readable()
    ensures { SmallConditionsAreReadable }
{}

/// The conditions of bytes that are accepted can be read back from their text, with the definitions of
/// the deck and with any marks. It does nothing.
pub fn conditions_in_are_readable()
    ensures { ConditionsInAreReadable }
{}

/// So they can without marks. It does nothing.
pub fn unmarked_in_are_readable()
    ensures { UnmarkedInAreReadable }
{}

/// What can be read back from the text of the conditions of accepted bytes is these conditions, with
/// definitions that stand for the same, and these marks. It does nothing.
pub fn text_tells_conditions()
    ensures { TextTellsConditions }
{}
