// Words of a text in prefix form.
use std::alloc::AllocError;

/// Puts a word, and a blank before it where something stands there other than an opening bracket or a line's end.
pub fn put_word(text: &mut Vec<u8>, word: &[u8]) -> Result<(), AllocError> {
    match text.last() {
        None | Some(b'(') | Some(b'\n') => {}
        Some(_) => text.push(b' ')?,
    }
    text.extend_from_slice(word)?;
    Ok(())
}
