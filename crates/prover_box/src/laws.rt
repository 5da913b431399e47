// Laws of marks and counts.
ghost use Rattle.prover_box.specs.Laws.{CountsRise, TestsMark, UnclosedAreEnough};

/// Where conditions have the marks that provers gave, and those whose mark is `-` are valid, all are
/// valid. It does nothing.
pub fn unclosed_are_enough()
    ensures { UnclosedAreEnough }
{}

/// The first prover is asked for each condition, and each prover at least for those whose mark is
/// `-`; so also one that tells no test. It does nothing.
pub fn counts_rise()
    ensures { CountsRise }
{}

/// Where all provers tell their tests, a mark is the letter of the first whose test the condition
/// passes, and `-` where it passes none. It does nothing.
pub fn tests_mark()
    ensures { TestsMark }
{}
