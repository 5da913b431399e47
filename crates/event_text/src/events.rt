// The whole text.
ghost use Rattle.std.specs.Prelude.{◌≡◌, ◌≤◌, length, map, OnOk, OnErr};
ghost use Rattle.std.specs.Io.KnownBytes.{Appends};
ghost use Rattle.std.specs.List.{All, flat_map};
ghost use Rattle.edge_io.specs.Causes.{HasCause};
ghost use Rattle.formula.specs.Worth.{function_of};
ghost use Rattle.event_text.specs.Conditions.{condition_tree, IsConditionIn, IsDefinitionIn};
ghost use Rattle.event_text.specs.EventText.{asked_line, closing_line, event_text};
ghost use Rattle.event_text.specs.Sending.{AppendsPart, Goes};
ghost use Rattle.formula.specs.Pool.{trees};
ghost use Rattle.event_text.specs.Depths.{deepest};

use crate::Marks;
use crate::condition::put_conditions;
use crate::definition::put_definitions;
use crate::out::Out;
use crate::writing_stack::WritingStack;
use edge_io::{Failed, List, Sink};
use formula::{Definitions, TermPool};
use fort_syntax::Condition;

/// Puts a line for each prover.
fn put_asked<K: Sink>(out: &mut Out, sink: &mut K, asked: &[(u8, u64)])
    ensures { Goes (K.written sink.old) (K.written sink.new) (K.faults sink.old)
        (K.faults sink.new) out.old out.new (flat_map asked_line asked.now) }
{
    for (letter, count) in asked {
        out.put(sink, b"; ASKED ");
        out.put(sink, &[*letter]);
        out.put(sink, b" ");
        out.put_number(sink, *count);
        out.put(sink, b"\n");
    }
}

/// Puts the closing line.
fn put_closing<K: Sink>(out: &mut Out, sink: &mut K, count: usize)
    ensures { Goes (K.written sink.old) (K.written sink.new) (K.faults sink.old)
        (K.faults sink.new) out.old out.new (closing_line count) }
{
    out.put(sink, b"; ");
    out.put_number(sink, count as u64);
    out.put(sink, b" CONDITIONS\n");
}

/// Puts the text of definitions, conditions and marks.
fn put_events<K: Sink>(
    out: &mut Out,
    sink: &mut K,
    pool: &TermPool,
    definitions: &Definitions,
    stack: &mut WritingStack,
    conditions: &[Condition],
    marks: &Marks,
)
    requires definitions { All (IsDefinitionIn pool.now) definitions.now }
    requires conditions { All (IsConditionIn pool.now) conditions.now }
    requires letters { length marks.now.letters ≡ length conditions.now }
    requires room { deepest (trees pool.now) ≤ stack.old.room }
    ensures { Goes (K.written sink.old) (K.written sink.new) (K.faults sink.old)
        (K.faults sink.new) out.old out.new (event_text (map (function_of pool.now) definitions.now)
        (map (condition_tree pool.now) conditions.now) marks.now) }
{
    put_definitions(out, sink, pool, definitions, stack);
    put_conditions(
        out,
        sink,
        pool,
        definitions,
        stack,
        conditions,
        marks.letters.as_slice(),
    );
    put_asked(out, sink, marks.asked.as_slice());
    put_closing(out, sink, conditions.len());
}

/// Writes the text of definitions, of conditions whose terms use them, and of what is known of
/// the conditions: a line for each definition, for each condition with its letter, and for each
/// prover, and a closing line. It goes out in pieces of 4,096 bytes and a last shorter one. At
/// `Failed` a front part of the text was written. It takes no memory: `stack` has the room
/// that the terms want.
pub fn write_events<K: Sink>(
    sink: &mut K,
    pool: &TermPool,
    definitions: &Definitions,
    conditions: &List<Condition>,
    marks: &Marks,
    stack: &mut WritingStack,
) -> Result<(), Failed>
    requires definitions { All (IsDefinitionIn pool.now) definitions.now }
    requires conditions { All (IsConditionIn pool.now) conditions.now }
    requires letters { length marks.now.letters ≡ length conditions.now }
    requires room { deepest (trees pool.now) ≤ stack.old.room }
    ensures ok { OnOk result (Appends (K.written sink.old) (K.written sink.new)
        (event_text (map (function_of pool.now) definitions.now)
        (map (condition_tree pool.now) conditions.now) marks.now)) }

    // A front part of the text was appended.
    ensures err { OnErr result (AppendsPart (K.written sink.old) (K.written sink.new)
        (event_text (map (function_of pool.now) definitions.now)
        (map (condition_tree pool.now) conditions.now) marks.now)) }
    ensures cause { HasCause (K.faults sink.old) (K.faults sink.new) result }
{
    let mut out = Out::new();
    put_events(
        &mut out,
        sink,
        pool,
        definitions,
        stack,
        conditions.as_slice(),
        marks,
    );
    out.finish(sink);
    if out.failed { Err(Failed) } else { Ok(()) }
}
