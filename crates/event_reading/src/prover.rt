// What provers were asked.
ghost use Rattle.std.specs.Prelude.{◌≡◌, option_map};
ghost use Rattle.event_reading.specs.Lines.{asked_at};

use crate::tokens::{after, letter_at, number_at};

/// The letter and the count of the prover that begins a text, and the text behind its line.
#[tactic(auto, unfolding(crate::specs::Lines::asked_at))]
pub fn asked_at(text: &[u8]) -> Option<((u8, u64), &[u8])>
    ensures { option_map (λ r. ((r.0.0, r.0.1), r.1.now)) result ≡ asked_at text.now }
{
    let Some(rest) = after(text, b"; ASKED ") else {
        return None;
    };
    let Some((letter, rest)) = letter_at(rest) else {
        return None;
    };
    let Some(rest) = after(rest, b" ") else {
        return None;
    };
    let Some((count, rest)) = number_at(rest, 18446744073709551615) else {
        return None;
    };
    let Some(rest) = after(rest, b"\n") else {
        return None;
    };
    Some(((letter, count), rest))
}
