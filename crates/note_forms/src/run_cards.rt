// RUN.
ghost use Rattle.std.specs.Prelude.{◌≡◌};
ghost use Rattle.fort_notes.specs.Parts.{parsed, bracket, inside};
ghost use Rattle.fort_notes.specs.Forms.{run, passing_word, passing_form, run_form, site_parts};
ghost use Rattle.note_parts.specs.Answers.{Gives};

use edge_io::List;
use fort_notes::{Given, Passing, RunCard, Site};
use note_parts::{
    Lack, begins_opening, closing, either, inside_brackets, number, number_between, opening,
    to_end, unit_name,
};
use std::alloc::Global;

// REF or COPY.
fn passing_word(text: &[u8]) -> Result<(Passing, &[u8]), Lack>
    ensures { Gives (λ r. parsed r.0 r.1.now) result (passing_word text.now) }
{
    let (copy, rest) = either(b"COPY", b"REF", text)?;
    if copy {
        return Ok((Passing::Copy, rest));
    }
    Ok((Passing::Reference, rest))
}

// Sites in brackets.
fn sites(alloc: Global, text: &[u8]) -> Result<(List<Site>, &[u8]), Lack>
    ensures { Gives (λ r. parsed r.0 r.1.now) result (bracket (inside (bracket site_parts)) text.now) }
{
    let rest = opening(text)?;
    let (all, rest) = inside_brackets::<Site>(alloc, rest)?;
    let rest = closing(rest)?;
    Ok((all, rest))
}

// REF, COPY, or sites in brackets.
fn passing(alloc: Global, text: &[u8]) -> Result<(Passing, &[u8]), Lack>
    ensures { Gives (λ r. parsed r.0 r.1.now) result (passing_form text.now) }
{
    if begins_opening(text) {
        let (all, rest) = sites(alloc, text)?;
        return Ok((Passing::Listed(all), rest));
    }
    passing_word(text)
}

/// A run: its unit, the least and the greatest integer, STRICT or LAZY, how arguments pass, how many
/// steps at most, and what is given.
pub fn run_card(alloc: Global, text: &[u8]) -> Result<(RunCard, &[u8]), Lack>
    ensures { Gives (λ r. parsed (run r.0) r.1.now) result (run_form text.now) }
{
    let Some((unit, rest)) = unit_name(text) else {
        return Err(Lack::Form);
    };
    let (least, rest) = number(rest)?;
    let (greatest, rest) = number(rest)?;
    let (lazy, rest) = either(b"LAZY", b"STRICT", rest)?;
    let (passing, rest) = passing(alloc, rest)?;
    let (steps, rest) = number_between(0, 1_000_000_000, rest)?;
    let (start, rest) = to_end::<Given>(alloc, rest)?;
    let card = RunCard {
        unit,
        least,
        greatest,
        lazy,
        passing,
        steps: steps.unsigned_abs(),
        start,
    };
    Ok((card, rest))
}
