// Conditions.
ghost use Rattle.std.specs.Prelude.{◌≡◌, None, length, map, option_map, IfOk};
ghost use Rattle.formula.specs.Pool.{AllBelow, Grows, IsIn, tree_of};
ghost use Rattle.event_text.specs.Conditions.{condition_tree, IsConditionIn};
ghost use Rattle.event_reading.specs.Answers.{Gives};
ghost use Rattle.event_reading.specs.Lines.{condition_at, implication_at, lemma_name_at, note_at};
ghost use Rattle.event_reading.specs.Readings.{number_at};

use crate::known::Known;
use crate::lack::Lack;
use crate::shapes::implication;
use crate::term::term_at;
use crate::tokens::{after, kind_at, mark_at, name_at, number_at};
use edge_io::List;
use formula::{Headings, TermId, TermPool};
use fort_syntax::{Condition, Kind, Name};
use std::alloc::Global;

// The number below 2^32 that begins a text.
fn small_number_at(text: &[u8]) -> Option<(u32, &[u8])>
    ensures { option_map (λ r. (r.0, r.1.now)) result ≡ number_at 4294967295 text.now }
{
    let Some((n, rest)) = number_at(text, 4294967295) else {
        return None;
    };
    Some((n as u32, rest))
}

// The name of a condition: its unit, path and check.
#[tactic(auto, unfolding(crate::specs::Lines::lemma_name_at))]
fn lemma_name_at(text: &[u8]) -> Option<((Name, u32, u32), &[u8])>
    ensures { option_map (λ r. ((r.0.0, r.0.1, r.0.2), r.1.now)) result ≡ lemma_name_at text.now }
{
    let Some(rest) = after(text, b"(PROVE-LEMMA ") else {
        return None;
    };
    let Some((unit, rest)) = name_at(rest) else {
        return None;
    };
    let Some(rest) = after(rest, b"-") else {
        return None;
    };
    let Some((path, rest)) = small_number_at(rest) else {
        return None;
    };
    let Some(rest) = after(rest, b"-") else {
        return None;
    };
    let Some((check, rest)) = small_number_at(rest) else {
        return None;
    };
    Some(((unit, path, check), rest))
}

// What stands behind a condition: its kind, its card and its mark, and the end of the line.
#[tactic(auto, unfolding(crate::specs::Lines::note_at))]
fn note_at(text: &[u8]) -> Option<((Kind, u32, u8), &[u8])>
    ensures { option_map (λ r. ((r.0.0, r.0.1, r.0.2), r.1.now)) result ≡ note_at text.now }
{
    let Some((kind, rest)) = kind_at(text) else {
        return None;
    };
    let Some(rest) = after(rest, b" CARD ") else {
        return None;
    };
    let Some((card, rest)) = small_number_at(rest) else {
        return None;
    };
    let Some(rest) = after(rest, b" ") else {
        return None;
    };
    let Some((mark, rest)) = mark_at(rest) else {
        return None;
    };
    let Some(rest) = after(rest, b"\n") else {
        return None;
    };
    Some(((kind, card, mark), rest))
}

// The hypotheses and the goal of the implication that begins a text.
#[tactic(auto, unfolding(crate::specs::Lines::implication_at))]
fn implication_at<'a>(
    alloc: Global,
    pool: &mut TermPool,
    known: &Known<'_>,
    text: &'a [u8],
) -> Result<((List<TermId>, TermId), &'a [u8]), Lack>
    requires { known.now.next ≡ None }
    ensures value { Gives (λ r. ((map (tree_of pool.new) r.0.0, tree_of pool.new r.0.1), r.1.now))
        result (implication_at known.now.headings.now text.now) }
    ensures inside { IfOk result (λ r. AllBelow (length pool.new) r.0.0 × IsIn pool.new r.0.1) }
    ensures grows { Grows pool.old pool.new }
{
    let (id, rest) = term_at(alloc, pool, known, text)?;
    let parts = implication(alloc, pool, id)?;
    Ok((parts, rest))
}

/// The condition that begins a text, its mark, and the text behind its line.
#[tactic(auto, unfolding(crate::specs::Lines::condition_at))]
pub fn condition_at<'a>(
    alloc: Global,
    pool: &mut TermPool,
    headings: &Headings,
    text: &'a [u8],
) -> Result<((Condition, u8), &'a [u8]), Lack>
    ensures value { Gives (λ r. ((condition_tree pool.new r.0.0, r.0.1), r.1.now)) result
        (condition_at headings.now text.now) }
    ensures inside { IfOk result (λ r. IsConditionIn pool.new r.0.0) }
    ensures grows { Grows pool.old pool.new }
{
    let Some(((unit, path, check), rest)) = lemma_name_at(text) else {
        return Err(Lack::Spelling);
    };
    let Some(rest) = after(rest, b" NIL ") else {
        return Err(Lack::Spelling);
    };
    let known = Known {
        headings,
        next: None,
    };
    let ((hyps, goal), rest) = implication_at(alloc, pool, &known, rest)?;
    let Some(rest) = after(rest, b") ; ") else {
        return Err(Lack::Spelling);
    };
    let Some(((kind, card, mark), rest)) = note_at(rest) else {
        return Err(Lack::Spelling);
    };
    let condition = Condition {
        unit,
        path,
        check,
        kind,
        card,
        hyps,
        goal,
    };
    Ok(((condition, mark), rest))
}
