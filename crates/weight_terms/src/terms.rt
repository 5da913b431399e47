// What terms of notes weigh.
ghost use Rattle.std.specs.Prelude.{◌≡◌, IfOk, OnOk};
ghost use Rattle.formula.specs.Pool.{IsIn, arguments_of, tree_of};
ghost use Rattle.formula.specs.Substitution.{is_bound};
ghost use Rattle.fort_model.specs.Senses.{note, with_bounds};
ghost use Rattle.path_sizes.specs.Weights.{of_weights};
ghost use Rattle.weight_caps.specs.Capped.{capped};
ghost use Rattle.weight_terms.specs.Held.{held};
ghost use Rattle.weight_terms.specs.Terms.{own_weight, pushed};

use crate::names::{NameWeights, Told};
use edge_io::{NoMemory, Stack};
use formula::{Node, TermId, TermPool, Word};
use std::alloc::Global;
use weight_caps::plus;

/// Whether a word is LEAST or GREATEST.
fn is_bound(word: &Word) -> bool
    ensures { result ≡ is_bound word.now }
{
    b"LEAST".as_slice() == word.as_bytes() || b"GREATEST".as_slice() == word.as_bytes()
}

/// What a symbol weighs: LEAST and GREATEST weigh 1, whatever else is named so.
fn symbol_weight(now: &NameWeights, word: &Word) -> u32
    ensures { result ≡ with_bounds of_weights (held now.now) word.now }
{
    if is_bound(word) {
        return 1;
    }
    now.of_word(word)
}

/// What a node weighs by itself.
fn own_weight(told: &Told, node: &Node) -> u32
    ensures { result ≡ own_weight (held told.now.before.now) (held told.now.behind.now) node.now }
{
    match node {
        Node::Num(_) | Node::Truth(_) | Node::Apply(..) => 1,
        Node::Symbol(word) => symbol_weight(told.behind, word),
        Node::Old(word) => told.before.of_word(word),
    }
}

/// Puts ids on the top of those that wait.
fn push_all(waiting: &mut Stack<TermId>, ids: &[TermId]) -> Result<(), NoMemory>
    ensures { OnOk result (waiting.new ≡ pushed ids.now waiting.old) }
{
    for id in ids {
        let Ok(()) = waiting.push(*id) else {
            return Err(NoMemory);
        };
    }
    Ok(())
}

/// Puts the arguments of a node on the top of those that wait.
fn push_arguments(waiting: &mut Stack<TermId>, node: &Node) -> Result<(), NoMemory>
    ensures { OnOk result (waiting.new ≡ pushed (arguments_of node.now) waiting.old) }
{
    match node {
        Node::Apply(_, args) => push_all(waiting, args.as_slice()),
        _ => Ok(()),
    }
}

/// What a term of a note weighs by what names weigh: 1 for each number, truth value and function,
/// and what its symbols and entry values weigh. It takes time in its size.
pub fn term_weight(alloc: Global, pool: &TermPool, told: &Told, id: TermId) -> Result<u32, NoMemory>
    requires { IsIn pool.now id }
    ensures { IfOk result (λ n. n ≡ capped (note of_weights (held told.now.before.now)
        (held told.now.behind.now) (tree_of pool.now id))) }
{
    let mut all: u32 = 0;
    let mut waiting = Stack::new(alloc);
    let Ok(()) = waiting.push(id) else {
        return Err(NoMemory);
    };
    while let Some(next) = waiting.pop() {
        let node = pool.node(next);
        all = plus(all, own_weight(told, node));
        let Ok(()) = push_arguments(&mut waiting, node) else {
            return Err(NoMemory);
        };
    }
    Ok(all)
}
