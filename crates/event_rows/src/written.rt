// What was read, written again.
ghost use Rattle.std.specs.Prelude.{◌≡◌, length};
ghost use Rattle.std.specs.List.{All};
ghost use Rattle.event_text.specs.Conditions.{IsConditionIn, IsDefinitionIn};

use anyhow::{Result, bail};
use edge_io::MemSink;
use event_reading::Events;
use event_text::{WritingStack, write_events};
use formula::TermPool;
use std::alloc::Global;

/// The most bytes of a text.
const ROOM: usize = 1 << 20;

/// Puts the text of what was read.
pub(crate) fn put_written(
    alloc: Global,
    text: &mut Vec<u8>,
    pool: &TermPool,
    events: &Events,
) -> Result<()>
    requires definitions { All (IsDefinitionIn pool.now) events.now.definitions }
    requires conditions { All (IsConditionIn pool.now) events.now.conditions }
    requires letters { length events.now.marks.letters ≡ length events.now.conditions }
{
    let mut stack = WritingStack::new(alloc, pool)?;
    let mut sink = MemSink::new(alloc, ROOM, &[])?;
    let Ok(()) = write_events(
        &mut sink,
        pool,
        &events.definitions,
        &events.conditions,
        &events.marks,
        &mut stack,
    ) else {
        bail!("not written");
    };
    text.extend_from_slice(sink.bytes())?;
    Ok(())
}
