// What comes of reading.
use anyhow::{Result, bail};
use event_reading::EventFault;
use std::alloc::Global;

/// Puts the line of a fault.
pub(crate) fn put_fault(alloc: Global, text: &mut Vec<u8>, fault: EventFault) -> Result<()> {
    match fault {
        EventFault::BadEvent { at } => {
            text.extend_from_slice(format!(in alloc; "{fault} {at}\n")?.as_bytes())?;
            Ok(())
        }
        EventFault::NoMemory => bail!("no memory"),
    }
}
