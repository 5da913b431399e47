// Bytes as printing characters spell them: `\` and two digits are a byte, and each other character is itself.
use anyhow::{Result, bail, ensure};
use std::alloc::AllocError;

// The number of a hexadecimal digit.
fn digit(byte: u8) -> Option<u8> {
    match byte {
        b'0'..=b'9' => Some(byte - b'0'),
        b'a'..=b'f' => Some(byte - b'a' + 10),
        _ => None,
    }
}

// Puts the byte that two digits are, and the bytes behind them.
fn put_part(bytes: &mut Vec<u8>, part: &[u8]) -> Result<()> {
    let [high, low, plain @ ..] = part else {
        bail!("one digit behind \\");
    };
    let (Some(high), Some(low)) = (digit(*high), digit(*low)) else {
        bail!("no digits behind \\");
    };
    bytes.push(high << 4 | low)?;
    bytes.extend_from_slice(plain)?;
    Ok(())
}

/// Puts the bytes that a text spells, and an end. A `\` at the end of the text is for no end.
pub(crate) fn put_bytes(bytes: &mut Vec<u8>, text: &[u8], end: &[u8]) -> Result<()> {
    ensure!(
        text.iter().all(|byte| matches!(*byte, b' '..=b'~')),
        "a byte that has to be spelled"
    );
    let mut parts = text.split(|byte| *byte == b'\\');
    if let Some(plain) = parts.next() {
        bytes.extend_from_slice(plain)?;
    }
    let mut ends = true;
    for part in parts {
        ensure!(ends, "two of \\");
        ends = !part.is_empty();
        if ends {
            put_part(bytes, part)?;
        }
    }
    if ends {
        bytes.extend_from_slice(end)?;
    }
    Ok(())
}

// The hexadecimal digit of a number.
fn hex(number: u8) -> char {
    char::from_digit(u32::from(number), 16).unwrap_or('?')
}

/// Puts what spells a byte; a line feed is itself.
pub(crate) fn put_spelled(text: &mut String, byte: u8) -> Result<(), AllocError> {
    if matches!(byte, b'\n' | b' '..=b'[' | b']'..=b'~') {
        return text.push(char::from(byte));
    }
    text.push('\\')?;
    text.push(hex(byte >> 4))?;
    text.push(hex(byte & 15))
}
