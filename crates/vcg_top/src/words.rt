// The words of a call.
ghost use Rattle.std.specs.Prelude.{◌≡◌};
ghost use Rattle.vcg_top.specs.Commands.{asked, deck_command, is_number, made_command, task_of, two_words};

use crate::command::{Command, Task};
use formula::{is_digits, spelled};
use fort_syntax::Dialect;

/// The task of a word.
fn task_of(word: &[u8]) -> Option<Task>
    ensures { result ≡ task_of word.now }
{
    if word == b"vc".as_slice() {
        return Some(Task::Vc);
    }
    if word == b"check".as_slice() {
        return Some(Task::Check);
    }
    if word == b"run".as_slice() {
        return Some(Task::Run);
    }
    if word == b"try".as_slice() {
        return Some(Task::Try);
    }
    None
}

/// The command of a word for a task, on a deck of a dialect.
fn deck_command(dialect: Dialect, word: &[u8]) -> Option<Command>
    ensures { result ≡ deck_command dialect (task_of word.now) }
{
    match task_of(word) {
        Some(task) => Some(Command::Deck(task, dialect)),
        None => None,
    }
}

/// Whether a word is a number of 1 to 18 digits.
fn is_number(word: &[u8]) -> bool
    ensures { result ≡ is_number word.now }
{
    is_digits(word) && word.len() <= 18
}

/// The command of the number of a made deck.
fn made_command(word: &[u8]) -> Option<Command>
    ensures { result ≡ made_command word.now }
{
    if !is_number(word) {
        return None;
    }
    Some(Command::Made(spelled(word)))
}

/// The command of two words.
fn two_words(first: &[u8], second: &[u8]) -> Option<Command>
    ensures { result ≡ two_words first.now second.now }
{
    if first == b"made".as_slice() {
        return made_command(second);
    }
    if second == b"77".as_slice() {
        return deck_command(Dialect::SeventySeven, first);
    }
    None
}

/// What the words ask for, where they are words of the program.
pub(crate) fn command_of(words: &[String]) -> Option<Command>
    ensures { result ≡ asked words.now }
{
    match words {
        [word] => deck_command(Dialect::Common, word.as_bytes()),
        [first, second] => two_words(first.as_bytes(), second.as_bytes()),
        _ => None,
    }
}
