// The grammar of terms.
ghost use Rattle.formula.specs.Grammar.{ReadingIsTheGrammar};

/// A text gives a term just where a spelling of the term begins it, in at most as many brackets as
/// may be open; the number of bytes taken is then the end of the spelling. It does nothing.
pub fn reading_is_the_grammar()
    ensures { ReadingIsTheGrammar }
{}
