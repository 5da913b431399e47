// Lists of parts.
ghost use Rattle.std.specs.Prelude.{◌≡◌, [], length};
ghost use Rattle.fort_notes.specs.Parts.{parsed, parts, parts_up_to, begins, is_closing, is_over, inside, rest_of};
ghost use Rattle.note_parts.specs.Answers.{Gives};

use crate::Lack;
use crate::tokens::{begins_closing, is_over};
use edge_io::List;
use std::alloc::Global;

/// Parts that stand in lists.
pub trait Part: Drop {
    ghost use Rattle.std.specs.Prelude.{List, ℕ};
    ghost use Rattle.fort_notes.specs.Parts.{Parsed};

    ghost part: { List ℕ → Parsed Self };

    /// The part that begins a text, and the text behind it.
    fn read(alloc: Global, text: &[u8]) -> Result<(Self, &[u8]), Lack>
        ensures { Gives (λ r. parsed r.0 r.1.now) result (part text.now) };
}

/// Parts up to a closing bracket, and the text from there on.
pub fn inside_brackets<X: Part>(alloc: Global, text: &[u8]) -> Result<(List<X>, &[u8]), Lack>
    ensures { Gives (λ r. parsed r.0 r.1.now) result (inside X.part text.now) }
{
    let mut all = Vec::new(alloc);
    let mut rest = text;
    let mut left = text.len() + 1;
    while left > 0 {
        left -= 1;
        if begins_closing(rest) {
            return Ok((List::from_vec(all), rest));
        }
        let (x, behind) = X::read(alloc, rest)?;
        let Ok(()) = all.push(x) else {
            return Err(Lack::Memory);
        };
        rest = behind;
    }
    Err(Lack::Form)
}

/// Parts up to the end of a text.
pub fn to_end<X: Part>(alloc: Global, text: &[u8]) -> Result<(List<X>, &[u8]), Lack>
    ensures { Gives (λ r. parsed r.0 r.1.now) result (rest_of X.part text.now) }
{
    let mut all = Vec::new(alloc);
    let mut rest = text;
    let mut left = text.len() + 1;
    while left > 0 {
        left -= 1;
        if is_over(rest) {
            return Ok((List::from_vec(all), rest));
        }
        let (x, behind) = X::read(alloc, rest)?;
        let Ok(()) = all.push(x) else {
            return Err(Lack::Memory);
        };
        rest = behind;
    }
    Err(Lack::Form)
}
