// BOUND.
ghost use Rattle.std.specs.Prelude.{◌≡◌};
ghost use Rattle.fort_notes.specs.Parts.{parsed};
ghost use Rattle.fort_notes.specs.Forms.{bound, bound_form};
ghost use Rattle.note_parts.specs.Answers.{Gives};

use note_parts::{Lack, is_over, number_between};

/// The bound up to which each processor has all integers: a number from 1 to 10^18 - 1, and nothing
/// behind it.
pub fn bound(text: &[u8]) -> Result<(u64, &[u8]), Lack>
    ensures { Gives (λ r. parsed (bound r.0) r.1.now) result (bound_form text.now) }
{
    let (z, rest) = number_between(1, 999_999_999_999_999_999, text)?;
    if !is_over(rest) {
        return Err(Lack::Form);
    }
    Ok((z.unsigned_abs(), rest))
}
