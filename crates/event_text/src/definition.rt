// Definitions on their way out.
ghost use Rattle.std.specs.Prelude.{◌≡◌, ◌≤◌, ◌++◌, length, map, codes};
ghost use Rattle.std.specs.List.{All, flat_map};
ghost use Rattle.event_text.specs.Sending.{Goes};
ghost use Rattle.formula.specs.Adding.{IsBodyIn};
ghost use Rattle.formula.specs.Worth.{body_of, function_of};
ghost use Rattle.event_text.specs.Conditions.{IsDefinitionIn};
ghost use Rattle.event_text.specs.EventText.{body_text, definition_line, first_word, spaced};
ghost use Rattle.formula.specs.Pool.{trees};
ghost use Rattle.event_text.specs.Depths.{deepest};

use crate::out::Out;
use crate::terms::put_term;
use crate::writing_stack::WritingStack;
use edge_io::Sink;
use formula::{Body, Definition, Definitions, TermPool, Word};

/// Puts words, with a blank between them.
fn put_words<K: Sink>(out: &mut Out, sink: &mut K, words: &[Word])
    ensures { Goes (K.written sink.old) (K.written sink.new) (K.faults sink.old)
        (K.faults sink.new) out.old out.new (spaced words.now) }
{
    if let [first, rest @ ..] = words {
        out.put(sink, first.as_bytes());
        put_more_words(out, sink, rest);
    }
}

/// Puts words, with a blank before each.
fn put_more_words<K: Sink>(out: &mut Out, sink: &mut K, words: &[Word])
    ensures { Goes (K.written sink.old) (K.written sink.new) (K.faults sink.old) (K.faults sink.new) out.old out.new (flat_map (λ w. codes " " ++ w) words.now) }
{
    for word in words {
        out.put(sink, b" ");
        out.put(sink, word.as_bytes());
    }
}

/// Puts the first word, and nothing where there is none.
fn put_first_word<K: Sink>(out: &mut Out, sink: &mut K, words: &[Word])
    ensures { Goes (K.written sink.old) (K.written sink.new) (K.faults sink.old)
        (K.faults sink.new) out.old out.new (first_word words.now) }
{
    if let [first, ..] = words {
        out.put(sink, first.as_bytes());
    }
}

/// Puts what a definition stands for.
fn put_body<K: Sink>(
    out: &mut Out,
    sink: &mut K,
    pool: &TermPool,
    definitions: &Definitions,
    stack: &mut WritingStack,
    definition: &Definition,
)
    requires inside { IsBodyIn pool.now definition.now.body }
    requires room { deepest (trees pool.now) ≤ stack.old.room }
    ensures room { stack.old.room ≤ stack.new.room }
    ensures goes { Goes (K.written sink.old) (K.written sink.new) (K.faults sink.old)
        (K.faults sink.new) out.old out.new (body_text (map (λ d. d.name) definitions.now)
        definition.now.params (body_of pool.now definition.now.body)) }
{
    match definition.body {
        Body::Plain(term) => put_term(out, sink, pool, definitions, stack, term),
        Body::Counting(base, step) => {
            out.put(sink, b"(IF (ZLEQ ");
            put_first_word(out, sink, definition.params.as_slice());
            out.put(sink, b" 0) ");
            put_term(out, sink, pool, definitions, stack, base);
            out.put(sink, b" ");
            put_term(out, sink, pool, definitions, stack, step);
            out.put(sink, b")");
        }
    }
}

/// Puts the line of a definition.
fn put_definition<K: Sink>(
    out: &mut Out,
    sink: &mut K,
    pool: &TermPool,
    definitions: &Definitions,
    stack: &mut WritingStack,
    definition: &Definition,
)
    requires inside { IsDefinitionIn pool.now definition.now }
    requires room { deepest (trees pool.now) ≤ stack.old.room }
    ensures room { stack.old.room ≤ stack.new.room }
    ensures goes { Goes (K.written sink.old) (K.written sink.new) (K.faults sink.old)
        (K.faults sink.new) out.old out.new (definition_line (map (λ d. d.name) definitions.now)
        (function_of pool.now definition.now)) }
{
    out.put(sink, b"(DEFN ");
    out.put(sink, definition.name.as_bytes());
    out.put(sink, b" (");
    put_words(out, sink, definition.params.as_slice());
    out.put(sink, b") ");
    put_body(out, sink, pool, definitions, stack, definition);
    out.put(sink, b")\n");
}

/// Puts a line for each definition.
pub fn put_definitions<K: Sink>(
    out: &mut Out,
    sink: &mut K,
    pool: &TermPool,
    definitions: &Definitions,
    stack: &mut WritingStack,
)
    requires inside { All (IsDefinitionIn pool.now) definitions.now }
    requires room { deepest (trees pool.now) ≤ stack.old.room }
    ensures room { stack.old.room ≤ stack.new.room }
    ensures goes { Goes (K.written sink.old) (K.written sink.new) (K.faults sink.old)
        (K.faults sink.new) out.old out.new (flat_map (λ d. definition_line
        (map (λ d. d.name) definitions.now) (function_of pool.now d)) definitions.now) }
{
    for k in 0..definitions.count() {
        put_definition(out, sink, pool, definitions, stack, definitions.get(k + 1));
    }
}
