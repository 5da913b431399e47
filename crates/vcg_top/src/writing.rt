// Texts that are written whole.
ghost use Rattle.std.specs.Prelude.{◌≡◌, ◌≤◌, ◌⊎◌};
ghost use Rattle.std.specs.Io.KnownBytes.{Appends};
ghost use Rattle.edge_io.specs.Causes.{Rose};
ghost use Rattle.event_text.specs.Sending.{AppendsPart};
ghost use Rattle.fort_syntax.specs.FaultLine.{fault_line};
ghost use Rattle.fort_syntax.specs.declared.refusal.Fault.{Fault};
ghost use Rattle.fort_syntax.specs.declared.refusal.Refusal.TheVariants.{Broken};
ghost use Rattle.reply_lines.specs.Lines.{bad_number_line};
ghost use Rattle.vcg_top.specs.declared.status.Status.TheVariants.{Done, Refused, WriteFault, NoMemory as Starved};

use crate::Status;
use edge_io::{Sink, write_all};
use event_text::write_fault;
use fort_syntax::{Fault, Refusal};

/// Writes a text that answers what was asked. It takes no memory.
pub(crate) fn write_text<K: Sink>(sink: &mut K, text: &[u8]) -> Status
    ensures only { (result ≡ Done) ⊎ (result ≡ WriteFault) }
    ensures done { result ≡ Done → Appends (K.written sink.old) (K.written sink.new) text.now }
    ensures part { result ≡ WriteFault → AppendsPart (K.written sink.old) (K.written sink.new) text.now }
    ensures cause { result ≡ WriteFault → Rose (K.faults sink.old) (K.faults sink.new) }
    ensures later { K.faults sink.old ≤ K.faults sink.new }
{
    let Ok(()) = write_all(sink, text) else {
        return Status::WriteFault;
    };
    Status::Done
}

/// Writes the line of a fault. It takes no memory.
fn refuse<K: Sink>(sink: &mut K, fault: Fault) -> Status
    ensures only { (result ≡ Refused) ⊎ (result ≡ WriteFault) }
    ensures refused { result ≡ Refused → Appends (K.written sink.old) (K.written sink.new)
        (fault_line fault) }
    ensures part { result ≡ WriteFault → AppendsPart (K.written sink.old) (K.written sink.new)
        (fault_line fault) }
    ensures cause { result ≡ WriteFault → Rose (K.faults sink.old) (K.faults sink.new) }
    ensures later { K.faults sink.old ≤ K.faults sink.new }
{
    let Ok(()) = write_fault(sink, &fault) else {
        return Status::WriteFault;
    };
    Status::Refused
}

/// Writes that no deck of a number is made. It takes no memory.
pub(crate) fn refuse_number<K: Sink>(sink: &mut K) -> Status
    ensures only { (result ≡ Refused) ⊎ (result ≡ WriteFault) }
    ensures refused { result ≡ Refused → Appends (K.written sink.old) (K.written sink.new) bad_number_line }
    ensures part { result ≡ WriteFault → AppendsPart (K.written sink.old)
        (K.written sink.new) bad_number_line }
    ensures cause { result ≡ WriteFault → Rose (K.faults sink.old) (K.faults sink.new) }
    ensures later { K.faults sink.old ≤ K.faults sink.new }
{
    let Ok(()) = write_all(sink, b"REFUSED BadNumber\n") else {
        return Status::WriteFault;
    };
    Status::Refused
}

/// Writes the line of the fault for which a deck is refused, if that is why.
pub(crate) fn deny<K: Sink>(sink: &mut K, refusal: Refusal) -> Status
    ensures only { (result ≡ Refused) ⊎ ((result ≡ WriteFault) ⊎ (result ≡ Starved)) }
    ensures refused { result ≡ Refused → (f : Fault) × (refusal ≡ Broken f)
        × Appends (K.written sink.old) (K.written sink.new) (fault_line f) }
    ensures part { result ≡ WriteFault → (f : Fault) × (refusal ≡ Broken f)
        × AppendsPart (K.written sink.old) (K.written sink.new) (fault_line f) }
    ensures cause { result ≡ WriteFault → Rose (K.faults sink.old) (K.faults sink.new) }
    ensures nothing { result ≡ Starved → sink.new ≡ sink.old }
    ensures later { K.faults sink.old ≤ K.faults sink.new }
{
    match refusal {
        Refusal::Broken(fault) => refuse(sink, fault),
        Refusal::NoMemory => Status::NoMemory,
    }
}
