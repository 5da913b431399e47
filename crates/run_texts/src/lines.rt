// The lines of RUN cards.
ghost use Rattle.std.specs.Prelude.{◌≡◌, ◌++◌, ◌<◌, ◌^◌, length, IfOk, OnOk};
ghost use Rattle.run_start.specs.Started.{refusal_of};
ghost use Rattle.run_eval.specs.Performed.{IsRunDeck, setting_of};
ghost use Rattle.run_texts.specs.Runs.{card_text, does_reach, line_of, run_text, started_text};
ghost use Rattle.run_texts.specs.Told.{came_text};

use crate::outcomes::put_told;
use crate::refusals::{put_refusal, put_refused};
use edge_io::{List, NoMemory};
use fort_model::processor;
use fort_notes::RunCard;
use reply_lines::{put, put_number};
use run_eval::{Run, performed, setting_of};
use run_start::Runnable;
use std::alloc::Global;

/// A deck that can be run, and its bound.
#[derive(Drop)]
struct Desk<'a> {
    alloc: Global,
    deck: &'a Runnable<'a>,
    bound: u64,
}

/// A length has 64 bits. It does nothing.
fn small(count: usize)
    ensures { count < 2 ^ 64 }
{}

/// Puts what a run of a deck comes to.
fn put_run(text: &mut Vec<u8>, deck: &Runnable<'_>, run: &Run) -> Result<(), NoMemory>
    ensures small { length run.now.state.cells.items < 2 ^ 64 }
    ensures told { OnOk result (text.new.items ≡ text.old.items ++ came_text deck.now.units.now run.now) }
{
    small(run.state.cells.len());
    let Some(unit) = deck.units.get(run.unit) else {
        return Ok(());
    };
    put_told(text, unit, run.entries.as_slice(), &run.state)
}

/// Puts what a card comes to whose processor meets the bound.
fn put_started(desk: &Desk, text: &mut Vec<u8>, card: &RunCard) -> Result<(), NoMemory>
    requires { IsRunDeck desk.now.deck.now }
    ensures { OnOk result (text.new.items ≡ text.old.items ++ started_text
        desk.now.deck.now.code.now.dialect desk.now.deck.now.units.now card.now
        (refusal_of desk.now.deck.now.units.now (setting_of card.now) card.now.unit
        card.now.start)) }
{
    let Ok(setting) = setting_of(desk.alloc, card) else {
        return Err(NoMemory);
    };
    match performed(desk.alloc, desk.deck, &setting, card) {
        Ok(run) => put_run(text, desk.deck, &run),
        Err(refusal) => put_refusal(text, refusal),
    }
}

/// Whether the processor of a card meets the bound of a deck.
fn does_reach(card: &RunCard, bound: u64) -> bool
    ensures { result ≡ does_reach card.now.least card.now.greatest bound }
{
    processor(card.least, card.greatest, bound).is_some()
}

/// Puts what a card comes to.
fn put_card(desk: &Desk, text: &mut Vec<u8>, card: &RunCard) -> Result<(), NoMemory>
    requires { IsRunDeck desk.now.deck.now }
    ensures { OnOk result (text.new.items ≡ text.old.items ++ card_text
        desk.now.deck.now.code.now.dialect desk.now.deck.now.units.now desk.now.bound card.now) }
{
    if !does_reach(card, desk.bound) {
        return put_refused(text, b"BadProcessor");
    }
    put_started(desk, text, card)
}

/// Puts the line of a card.
fn put_line(desk: &Desk, text: &mut Vec<u8>, number: u64, card: &RunCard) -> Result<(), NoMemory>
    requires { IsRunDeck desk.now.deck.now }
    ensures { OnOk result (text.new.items ≡ text.old.items ++ line_of number
        (card_text desk.now.deck.now.code.now.dialect desk.now.deck.now.units.now desk.now.bound
        card.now)) }
{
    put(text, b"RUN ")?;
    put_number(text, number)?;
    put(text, b" ")?;
    put_card(desk, text, card)?;
    put(text, b"\n")
}

/// Puts the lines of cards.
fn put_lines(desk: &Desk, text: &mut Vec<u8>, cards: &[RunCard]) -> Result<(), NoMemory>
    requires { IsRunDeck desk.now.deck.now }
    ensures { OnOk result (text.new.items ≡ text.old.items ++ run_text
        desk.now.deck.now.code.now.dialect desk.now.deck.now.units.now desk.now.bound 1 cards.now) }
{
    for done in 0..cards.len() {
        let Ok(()) = put_line(desk, text, done as u64 + 1, &cards[done]) else {
            return Err(NoMemory);
        };
    }
    Ok(())
}

/// The lines of cards: what the run that each of them asks for comes to.
pub(crate) fn lines_text(
    alloc: Global,
    deck: &Runnable<'_>,
    bound: u64,
    cards: &[RunCard],
) -> Result<List<u8>, NoMemory>
    requires { IsRunDeck deck.now }
    ensures { IfOk result (λ text. text ≡ run_text deck.now.code.now.dialect deck.now.units.now
        bound 1 cards.now) }
{
    let desk = Desk { alloc, deck, bound };
    let mut text = Vec::new(alloc);
    let Ok(()) = put_lines(&desk, &mut text, cards) else {
        return Err(NoMemory);
    };
    Ok(List::from_vec(text))
}
