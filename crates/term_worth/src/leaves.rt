// Terms that are no functions, and arguments from the left as far as they are such terms.
ghost use Rattle.std.specs.Prelude.{◌≡◌, ◌≢◌, ◌≤◌, ℕ, List, length, IfOk, Err};
ghost use Rattle.formula.specs.Bounded.{beyond};
ghost use Rattle.formula.specs.Pool.{AllBelow};
ghost use Rattle.formula.specs.declared.value.Cell.{Cell};
ghost use Rattle.term_worth.specs.Leaves as leaves;
ghost use Rattle.term_worth.specs.Leaves.{Prepares, IsBeyondFrom};
ghost use Rattle.term_worth.specs.Machine.{value_of, symbols_of, IsHeld, IsScope, IsWhole};

use crate::combining::put_ranged;
use crate::machine::{Held, Machine, Scope};
use crate::scopes::value_in;
use crate::{Sheet, Worth};
use formula::{Definitions, Node, TermId, TermPool};

/// Whether a node is no function.
#[inline(always)]
fn is_leaf(node: &Node) -> bool
    ensures { result ≡ leaves.is_leaf node.now }
{
    match node {
        Node::Apply(_, _) => false,
        _ => true,
    }
}

/// The value of a node that is no function; undefined for a function.
#[inline(always)]
pub fn leaf_value(definitions: &Definitions, sheet: &Sheet, scope: &Scope, node: &Node) -> Held
    ensures value { (made : List (List Cell)) → value_of sheet.now made result ≡ leaves.leaf_value
        (symbols_of definitions.now sheet.now made scope.now) node.now }
    ensures held { (n : ℕ) → IsScope n scope.now → IsHeld n result }
{
    match node {
        Node::Num(n) => Held::Int(*n),
        Node::Truth(b) => Held::Logical(*b),
        Node::Symbol(name) => value_in(definitions, sheet, scope, *name),
        Node::Old(_) | Node::Apply(_, _) => Held::Undefined,
    }
}

/// Puts the values of the arguments from the left that stand before the first function, and says
/// how many they are.
pub fn put_leaves(
    pool: &TermPool,
    definitions: &Definitions,
    sheet: &Sheet,
    machine: &mut Machine,
    args: &[TermId],
) -> Result<usize, Worth>
    requires args { AllBelow (length pool.now) args.now }
    requires whole { IsWhole pool.now machine.old }
    ensures within { IfOk result (λ k. k ≤ length args.now) }
    ensures ok { IfOk result (λ k. Prepares pool.now definitions.now sheet.now args.now
        k machine.old machine.new) }
    ensures beyond { result ≡ Err Worth.Beyond → IsBeyondFrom pool.now definitions.now
        sheet.now args.now machine.old }
    ensures not_spent { result ≢ Err Worth.Spent }
{
    machine.values.make_room(args.len())?;
    let mut ready = 0;
    while ready < args.len() {
        let node = pool.node(args[ready]);
        if !is_leaf(node) {
            return Ok(ready);
        }
        let held = match node {
            Node::Num(n) => Held::Int(*n),
            _ => leaf_value(definitions, sheet, &machine.scope, node),
        };
        put_ranged(machine, held)?;
        ready += 1;
    }
    Ok(ready)
}
