// The first choice.
ghost use Rattle.std.specs.Prelude.{◌≡◌};
ghost use Rattle.walk_choices.specs.Choices as choices_of;

/// The first of some choices, and 0 where there is none.
pub(crate) fn first_choice(choices: &[usize]) -> usize
    ensures { result ≡ choices_of.first_choice choices.now }
{
    match choices {
        [choice, ..] => *choice,
        [] => 0,
    }
}
