// Which definitions count.
use anyhow::Result;
use formula::{Body, Definitions};

/// Puts a line for each definition: its name, and whether it is plain or counts.
pub(crate) fn put_definitions(text: &mut Vec<u8>, definitions: &Definitions) -> Result<()> {
    for number in 1..definitions.count() + 1 {
        let definition = definitions.get(number);
        text.extend_from_slice(definition.name.as_bytes())?;
        match definition.body {
            Body::Plain(_) => text.extend_from_slice(b" plain\n")?,
            Body::Counting(_, _) => text.extend_from_slice(b" counting\n")?,
        }
    }
    Ok(())
}
