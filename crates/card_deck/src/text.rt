// Texts of statements and notes.
ghost use Rattle.std.specs.Prelude.{◌≡◌, ◌++◌, map, OnOk};
ghost use Rattle.std.specs.Char.{to_ascii_uppercase};
ghost use Rattle.fort_syntax.specs.Cards.{without_blanks};

use edge_io::NoMemory;

/// Puts bytes behind a text, in upper case.
pub(crate) fn put(text: &mut Vec<u8>, bytes: &[u8]) -> Result<(), NoMemory>
    ensures { OnOk result (text.new.items ≡ text.old.items ++ map to_ascii_uppercase bytes.now) }
{
    let from = text.len();
    if text.extend_from_slice(bytes).is_err() {
        return Err(NoMemory);
    }
    text.as_mut_slice()[from..].make_ascii_uppercase();
    Ok(())
}

/// Puts bytes but for blanks behind a text, in upper case.
pub(crate) fn put_dense(text: &mut Vec<u8>, bytes: &[u8]) -> Result<(), NoMemory>
    ensures { OnOk result (text.new.items ≡ text.old.items ++ map to_ascii_uppercase
        (without_blanks bytes.now)) }
{
    for byte in bytes {
        if *byte != b' ' && text.push(byte.to_ascii_uppercase()).is_err() {
            return Err(NoMemory);
        }
    }
    Ok(())
}
