// The text of refusals.
ghost use Rattle.std.specs.Prelude.{◌≡◌, ◌++◌, OnOk};
ghost use Rattle.run_texts.specs.Runs.{refused_text};
ghost use Rattle.run_texts.specs.Told.{Tells};

use edge_io::NoMemory;
use reply_lines::put;
use run_start::RunRefusal;

/// Puts a refusal by its word.
pub(crate) fn put_refused(text: &mut Vec<u8>, word: &[u8]) -> Result<(), NoMemory>
    ensures { OnOk result (text.new.items ≡ text.old.items ++ refused_text word.now) }
{
    put(text, b"REFUSED ")?;
    put(text, word)
}

/// Puts a refusal. Want of memory is not told in a text.
pub(crate) fn put_refusal(text: &mut Vec<u8>, refusal: RunRefusal) -> Result<(), NoMemory>
    ensures { OnOk result (Tells refusal text.old.items text.new.items) }
{
    match refusal {
        RunRefusal::UnknownName => put_refused(text, b"UnknownName"),
        RunRefusal::BadShape => put_refused(text, b"BadShape"),
        RunRefusal::OutOfRange => put_refused(text, b"OutOfRange"),
        RunRefusal::ManyCells => put_refused(text, b"ManyCells"),
        RunRefusal::NoMemory => Err(NoMemory),
    }
}
