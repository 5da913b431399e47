// Bytes and numbers put behind a text.
ghost use Rattle.std.specs.Prelude.{◌≡◌, ◌++◌, decimal, OnOk};

use edge_io::NoMemory;
use itoa::Buffer;

/// Puts bytes behind a text.
pub fn put(text: &mut Vec<u8>, bytes: &[u8]) -> Result<(), NoMemory>
    ensures { OnOk result (text.new.items ≡ text.old.items ++ bytes.now) }
{
    let Ok(()) = text.extend_from_slice(bytes) else {
        return Err(NoMemory);
    };
    Ok(())
}

/// Puts a number in decimal digits behind a text.
pub fn put_number(text: &mut Vec<u8>, n: u64) -> Result<(), NoMemory>
    ensures { OnOk result (text.new.items ≡ text.old.items ++ decimal n) }
{
    let mut buffer = Buffer::new();
    let digits = buffer.format(n);
    put(text, digits.as_bytes())
}
