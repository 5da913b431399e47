// The words of symbols.
ghost use Rattle.std.specs.Prelude.{◌≡◌, ◌≤◌, ◌<◌, ◌^◌, ◌++◌, length, codes, decimal, IfOk};
ghost use Rattle.fort_model.specs.Symbols.{AtEntry, AtStart, ByCall, word_of};

use edge_io::NoMemory;
use formula::Word;
use fort_syntax::Name;
use itoa::Buffer;
use std::alloc::Global;

/// The word with the bytes of a name and some bytes behind them.
fn name_with(alloc: Global, name: &Name, more: &[u8]) -> Result<Word, NoMemory>
    requires { length more.now ≤ 18 }
    ensures { IfOk result (λ w. w ≡ name.now ++ more.now) }
{
    let Ok(mut bytes) = Vec::from_slice(alloc, name.as_bytes()) else {
        return Err(NoMemory);
    };
    let Ok(()) = bytes.extend_from_slice(more) else {
        return Err(NoMemory);
    };
    match Word::new(bytes.as_slice()) {
        Some(word) => Ok(word),
        None => unreachable!(),
    }
}

/// The word for the value of a name at the entry.
pub(crate) fn entry_word(alloc: Global, name: &Name) -> Result<Word, NoMemory>
    ensures { IfOk result (λ w. w ≡ word_of (AtEntry name.now)) }
{
    name_with(alloc, name, b"-IN")
}

/// The word for the value of a name where a path starts at an ASSERT.
pub(crate) fn start_word(alloc: Global, name: &Name) -> Result<Word, NoMemory>
    ensures { IfOk result (λ w. w ≡ word_of (AtStart name.now)) }
{
    name_with(alloc, name, b"-AT")
}

/// A dash, and the digits of a number behind it.
fn dash_and_digits(alloc: Global, number: u32) -> Result<Vec<u8>, NoMemory>
    ensures ok { IfOk result (λ v. v.items ≡ codes "-" ++ decimal number) }
    ensures short { IfOk result (λ v. length v.items ≤ 18) }
{
    let mut buffer = Buffer::new();
    let digits = buffer.format(number).as_bytes();
    let Ok(mut bytes) = Vec::from_slice(alloc, b"-") else {
        return Err(NoMemory);
    };
    let Ok(()) = bytes.extend_from_slice(digits) else {
        return Err(NoMemory);
    };
    Ok(bytes)
}

/// The word for what the call of a number gives for a name.
pub(crate) fn call_word(alloc: Global, name: &Name, number: u32) -> Result<Word, NoMemory>
    ensures { IfOk result (λ w. w ≡ word_of (ByCall name.now number)) }
{
    let Ok(more) = dash_and_digits(alloc, number) else {
        return Err(NoMemory);
    };
    name_with(alloc, name, more.as_slice())
}
