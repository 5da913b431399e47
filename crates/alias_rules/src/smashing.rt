// The stage of the rules on smashed names.
ghost use Rattle.std.specs.Prelude.{◌≡◌, Err, IfOk};
ghost use Rattle.fort_syntax.specs.WellFormed.{IsWellFormed};
ghost use Rattle.fort_syntax.specs.declared.dialect.Dialect.{Dialect};
ghost use Rattle.fort_syntax.specs.declared.refusal.Fault.{Fault};
ghost use Rattle.fort_syntax.specs.declared.refusal.Refusal.TheVariants.{Broken};
ghost use Rattle.fort_model.specs.CallFacts.{AreCallFacts, IsCalleesTable};
ghost use Rattle.fort_model.specs.CallOrder.{IsCallOrder};
ghost use Rattle.fort_model.specs.Program.{Program};
ghost use Rattle.fort_model.specs.Stages.{KeepsAll, rules_of_smashing};
ghost use Rattle.alias_rules.specs.Stages.{IsSmashFault};

use crate::facts::facts_of;
use call_rules::Ordered;
use call_sites::DeckBook;
use edge_io::Keys;
use fort_model::CallFacts;
use fort_syntax::{Deck, Refusal};
use smash_rules::smash_fault;
use smash_table::smash_table;
use std::alloc::Global;

/// The facts of the calls of a deck whose order of calls is known, or the first fault of the rules on smashed names.
pub(crate) fn smashing(
    alloc: Global,
    keys: Keys,
    deck: &Deck,
    ordered: Ordered,
) -> Result<CallFacts, Refusal>
    requires well { (dialect : Dialect) × IsWellFormed dialect deck.now }
    requires order { IsCallOrder deck.now.units ordered.order }
    requires callees { IsCalleesTable deck.now.units ordered.callees }
    ensures facts { IfOk result (λ facts. (p : Program) → p.units ≡ deck.now.units
        → p.smashes ≡ facts.smashes → AreCallFacts p facts) }
    ensures kept { IfOk result (λ facts. (p : Program) → p.units ≡ deck.now.units
        → p.smashes ≡ facts.smashes → KeepsAll p rules_of_smashing) }
    ensures broken { (f : Fault) → result ≡ Err (Broken f) → IsSmashFault deck.now.units f }
{
    let Ok(book) = DeckBook::new(alloc, keys, deck.units.as_slice()) else {
        return Err(Refusal::NoMemory);
    };
    let Ok(table) = smash_table(alloc, keys, &book, ordered.order.as_slice()) else {
        return Err(Refusal::NoMemory);
    };
    let rows = table.as_slice();
    let Ok(fault) = smash_fault(alloc, keys, &book, rows) else {
        return Err(Refusal::NoMemory);
    };
    match fault {
        Some(fault) => Err(Refusal::Broken(fault)),
        None => facts_of(alloc, ordered, rows),
    }
}
