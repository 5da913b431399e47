// The statements and notes of a deck.
use crate::texts::put_rule;
use anyhow::{Result, bail};
use card_deck::cards;
use fort_syntax::{Entry, Fault, Refusal};
use std::alloc::Global;

// Puts an entry: its card, its label or `NOTE`, and its text between bars.
fn put_entry(alloc: Global, text: &mut Vec<u8>, entry: &Entry) -> Result<()> {
    let (head, bytes) = match entry {
        Entry::Statement { card, label, text } => (format!(in alloc; "{card} {label} |")?, text),
        Entry::Note { card, text } => (format!(in alloc; "{card} NOTE |")?, text),
    };
    text.extend_from_slice(head.as_bytes())?;
    text.extend_from_slice(bytes.as_slice())?;
    text.extend_from_slice(b"|\n")?;
    Ok(())
}

/// Puts the statements and notes of a deck, or the fault of its cards.
pub(crate) fn put_entries(alloc: Global, text: &mut Vec<u8>, deck: &[u8]) -> Result<()> {
    match cards(alloc, deck) {
        Ok(entries) => {
            for entry in entries.as_slice().iter() {
                put_entry(alloc, text, entry)?;
            }
        }
        Err(Refusal::Broken(Fault { rule, card })) => {
            put_rule(text, rule)?;
            text.extend_from_slice(format!(in alloc; " CARD {card}\n")?.as_bytes())?;
        }
        Err(Refusal::NoMemory) => bail!("no memory"),
    }
    Ok(())
}
