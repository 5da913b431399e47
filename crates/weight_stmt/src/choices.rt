// Choices, one after another.
ghost use Rattle.std.specs.Prelude.{◌≡◌};
ghost use Rattle.weight_stmt.specs.Choices.{all_of};

/// A choice, and those behind it.
#[derive(Clone, Copy)]
pub(crate) struct Taken<'a> {
    pub(crate) choice: usize,
    pub(crate) rest: &'a [usize],
}

/// The first of some choices, and those behind it.
pub(crate) fn first_of(choices: &[usize]) -> Option<Taken<'_>>
    ensures { all_of result ≡ choices.now }
{
    let [choice, rest @ ..] = choices else {
        return None;
    };
    Some(Taken {
        choice: *choice,
        rest,
    })
}
