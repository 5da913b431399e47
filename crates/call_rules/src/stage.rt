// The stage of the rules on calls.
ghost use Rattle.std.specs.Prelude.{◌≡◌, Err, IfOk, None, Some};
ghost use Rattle.fort_model.specs.CallFacts.{IsCalleesTable};
ghost use Rattle.fort_model.specs.CallOrder.{IsCallOrder};
ghost use Rattle.fort_model.specs.Program.{Program};
ghost use Rattle.fort_model.specs.Stages.{IsFirstBroken, KeepsAll, rules_of_calls};
ghost use Rattle.fort_syntax.specs.WellFormed.{IsWellFormed};
ghost use Rattle.fort_syntax.specs.declared.dialect.Dialect.{Dialect};
ghost use Rattle.fort_syntax.specs.declared.refusal.Fault.{Fault};
ghost use Rattle.fort_syntax.specs.declared.refusal.Refusal.TheVariants.{Broken};
ghost use Rattle.call_order.specs.CallGraphs.{AreInOrder};
ghost use Rattle.call_order.specs.Orderings.{TellsOrdering};
ghost use Rattle.call_rules.specs.CallFaults.{call_fault};
ghost use Rattle.call_rules.specs.Stage.{AreCallsOrdered, IsCallFault, recursive_of};

use crate::scanning::call_fault;
use call_order::{Ordered, Ordering, call_order};
use call_sites::DeckBook;
use edge_io::Keys;
use fort_syntax::{Deck, Refusal, Unit};
use std::alloc::Global;

fn recursive_of(found: &Ordering) -> Option<usize>
    ensures { result ≡ recursive_of found.now }
{
    match found {
        Ordering::Acyclic(_) => None,
        Ordering::Recursive(number) => Some(*number),
    }
}

/// The order of units, or their first fault.
fn units_stage(alloc: Global, keys: Keys, units: &[Unit]) -> Result<Ordered, Refusal>
    requires { AreInOrder units.now }
    ensures ordered { IfOk result (λ found. AreCallsOrdered units.now found.order found.callees) }
    ensures broken { (f : Fault) → result ≡ Err (Broken f) → IsCallFault units.now f }
{
    let Ok(deck) = DeckBook::new(alloc, keys, units) else {
        return Err(Refusal::NoMemory);
    };
    let Ok(found) = call_order(alloc, &deck) else {
        return Err(Refusal::NoMemory);
    };
    let Ok(fault) = call_fault(alloc, keys, &deck, recursive_of(&found)) else {
        return Err(Refusal::NoMemory);
    };
    if let Some(fault) = fault {
        return Err(Refusal::Broken(fault));
    }
    match found {
        Ordering::Acyclic(ordered) => Ok(ordered),
        Ordering::Recursive(_) => unreachable!(),
    }
}

/// The order of the calls of a deck that is well formed in some dialect, and for each unit the numbers of the units that its
/// calls are of, counted from 0: then every program of these units keeps the rules on calls, 37 to 40 and 44. Or else their
/// first fault, in every program of these units: on the least card, and there of the least number.
///
/// An error says that fault; or that memory was wanted and not had. No answer depends on the keys.
pub fn call_stage(alloc: Global, keys: Keys, deck: &Deck) -> Result<Ordered, Refusal>
    requires { (dialect : Dialect) × IsWellFormed dialect deck.now }
    ensures order { IfOk result (λ found. IsCallOrder deck.now.units found.order) }
    ensures callees { IfOk result (λ found. IsCalleesTable deck.now.units found.callees) }
    ensures kept { IfOk result (λ _. (p : Program) → p.units ≡ deck.now.units → KeepsAll p rules_of_calls) }
    ensures broken { (f : Fault) → result ≡ Err (Broken f) → (p : Program)
        → p.units ≡ deck.now.units → IsFirstBroken p rules_of_calls f }
{
    units_stage(alloc, keys, deck.units.as_slice())
}
