// The lines of `check` and of `made`.
ghost use Rattle.std.specs.Prelude.{◌≡◌, ◌++◌, IfOk, OnOk};
ghost use Rattle.reply_lines.specs.Lines.{accepted_line, made_line, sizes_text};

use crate::putting::{put, put_number};
use edge_io::{List, NoMemory};
use std::alloc::Global;

/// The numbers of units, of paths and of conditions of a deck.
#[derive(Clone, Copy, Debug, PartialEq, Eq)]
pub struct Sizes {
    pub units: u64,
    pub paths: u64,
    pub conditions: u64,
}

/// Puts the sizes of a deck behind a text.
fn put_sizes(text: &mut Vec<u8>, sizes: Sizes) -> Result<(), NoMemory>
    ensures { OnOk result (text.new.items ≡ text.old.items ++ sizes_text sizes) }
{
    put(text, b"UNITS ")?;
    put_number(text, sizes.units)?;
    put(text, b" PATHS ")?;
    put_number(text, sizes.paths)?;
    put(text, b" CONDITIONS ")?;
    put_number(text, sizes.conditions)
}

/// Puts the line of an accepted deck behind a text.
fn put_accepted(text: &mut Vec<u8>, sizes: Sizes) -> Result<(), NoMemory>
    ensures { OnOk result (text.new.items ≡ text.old.items ++ accepted_line sizes) }
{
    put(text, b"ACCEPTED ")?;
    put_sizes(text, sizes)?;
    put(text, b"\n")
}

/// Puts the line of a made deck behind a text.
fn put_made(text: &mut Vec<u8>, number: u64, sizes: Sizes, marked: u64) -> Result<(), NoMemory>
    ensures { OnOk result (text.new.items ≡ text.old.items ++ made_line number sizes marked) }
{
    put(text, b"MADE ")?;
    put_number(text, number)?;
    put(text, b" ")?;
    put_sizes(text, sizes)?;
    put(text, b" MARKED ")?;
    put_number(text, marked)?;
    put(text, b"\n")
}

/// The line of an accepted deck of these sizes.
pub fn accepted_line(alloc: Global, sizes: Sizes) -> Result<List<u8>, NoMemory>
    ensures { IfOk result (λ line. line ≡ accepted_line sizes) }
{
    let mut text = Vec::new(alloc);
    let Ok(()) = put_accepted(&mut text, sizes) else {
        return Err(NoMemory);
    };
    Ok(List::from_vec(text))
}

/// The line of the made deck of a number, with its sizes, and how many of its conditions are marked
/// with a letter.
pub fn made_line(
    alloc: Global,
    number: u64,
    sizes: Sizes,
    marked: u64,
) -> Result<List<u8>, NoMemory>
    ensures { IfOk result (λ line. line ≡ made_line number sizes marked) }
{
    let mut text = Vec::new(alloc);
    let Ok(()) = put_made(&mut text, number, sizes, marked) else {
        return Err(NoMemory);
    };
    Ok(List::from_vec(text))
}
