// What a pool keeps of each term beside its node.
ghost use Rattle.std.specs.Prelude.{◌≡◌, ◌+◌, ◌<◌, ◌^◌, ◌++◌, ◌∷◌, [], false, length, OnOk, OnErr};
ghost use Rattle.formula.specs.Facts as told;
ghost use Rattle.formula.specs.Pool.{AllBelow, HasArgumentsBelow};

use crate::{Func, Node, TermId};
use edge_io::NoMemory;

/// What is told of a term without a walk through it.
#[derive(Clone, Copy, Debug)]
pub struct Facts {
    /// Whether a symbol or the entry value of one stands in it.
    pub has_symbol: bool,
    /// Whether a definition is used in it.
    pub uses_definition: bool,
    /// The most functions that stand one in another.
    pub depth: u32,
    /// The number of its numbers, truth values, symbols, entry values and functions, where that is
    /// below 2^32, and else 2^32 - 1.
    pub size: u32,
}

/// The sum of two sizes, as it is told.
fn added(a: u32, b: u32) -> u32
    ensures { result ≡ told.capped (a + b) }
{
    let sum = a as u64 + b as u64;
    if sum <= u32::MAX as u64 {
        sum as u32
    } else {
        u32::MAX
    }
}

/// The facts of terms that stand side by side.
fn beside(a: Facts, b: Facts) -> Facts
    ensures { result ≡ told.beside a b }
{
    Facts {
        has_symbol: a.has_symbol || b.has_symbol,
        uses_definition: a.uses_definition || b.uses_definition,
        depth: a.depth.max(b.depth),
        size: added(a.size, b.size),
    }
}

/// The facts of an id's term.
fn facts_at(facts: &[Facts], id: TermId) -> Facts
    requires { id.place < length facts.now }
    ensures { result ≡ told.facts_at facts.now id.place }
{
    facts[id.index()]
}

/// The facts of some arguments, side by side.
fn row_facts(facts: &[Facts], args: &[TermId]) -> Facts
    requires { AllBelow (length facts.now) args.now }
    ensures { result ≡ told.row_facts_in facts.now args.now }
{
    let mut all = Facts {
        has_symbol: false,
        uses_definition: false,
        depth: 0,
        size: 0,
    };
    let mut left = args.len();
    while left > 0 {
        left -= 1;
        all = beside(facts_at(facts, args[left]), all);
    }
    all
}

/// The facts of a function, from those of its arguments.
fn function_facts(f: Func, row: Facts) -> Facts
    requires { row.depth + 1 < 2 ^ 32 }
    ensures { result ≡ told.function_facts f row }
{
    Facts {
        has_symbol: row.has_symbol,
        uses_definition: matches!(f, Func::Defined(_)) || row.uses_definition,
        depth: row.depth + 1,
        size: added(row.size, 1),
    }
}

/// The facts of a leaf, which is a symbol or the entry value of one, or else a number or a truth
/// value.
fn leaf_facts(has_symbol: bool) -> Facts
    ensures { result ≡ record { has_symbol = has_symbol; uses_definition = false; depth = 0; size = 1 } }
{
    Facts {
        has_symbol,
        uses_definition: false,
        depth: 0,
        size: 1,
    }
}

/// The facts of a node, from those of the terms before it.
fn node_facts(facts: &[Facts], node: &Node) -> Facts
    requires below { HasArgumentsBelow (length facts.now) node.now }
    requires shallow { (told.facts_in facts.now node.now).depth < 2 ^ 32 }
    ensures { result ≡ told.facts_in facts.now node.now }
{
    match node {
        Node::Num(_) | Node::Truth(_) => leaf_facts(false),
        Node::Symbol(_) | Node::Old(_) => leaf_facts(true),
        Node::Apply(f, args) => function_facts(*f, row_facts(facts, args.as_slice())),
    }
}

/// Puts the facts of a node behind those of the terms before it.
pub fn note(facts: &mut Vec<Facts>, node: &Node) -> Result<(), NoMemory>
    requires below { HasArgumentsBelow (length facts.old.items) node.now }
    requires shallow { (told.facts_in facts.old.items node.now).depth < 2 ^ 32 }
    ensures noted { OnOk result (facts.new.items ≡ facts.old.items ++ told.facts_in facts.old.items
        node.now ∷ []) }
    ensures unchanged { OnErr result (facts.new.items ≡ facts.old.items) }
{
    let more = node_facts(facts.as_slice(), node);
    let Ok(()) = facts.push(more) else {
        return Err(NoMemory);
    };
    Ok(())
}
