// The stages of the rules on calls and on smashed names.
ghost use Rattle.std.specs.Prelude.{◌≡◌, Err, IfOk};
ghost use Rattle.fort_syntax.specs.WellFormed.{IsWellFormed};
ghost use Rattle.fort_syntax.specs.declared.dialect.Dialect.{Dialect};
ghost use Rattle.fort_syntax.specs.declared.refusal.Fault.{Fault};
ghost use Rattle.fort_syntax.specs.declared.refusal.Refusal.TheVariants.{Broken};
ghost use Rattle.fort_model.specs.CallOrder.{IsCallOrder};
ghost use Rattle.alias_rules.specs.Stages.{IsAliasFault, IsSmashFault, KeepCalls};
ghost use Rattle.deck_judging.specs.Calls.{AreCallsKnown};
ghost use Rattle.deck_judging.specs.Stages.{HaveTable, KeepSmashing};

use call_order::Ordered;
use call_rules::call_stage;
use call_sites::DeckBook;
use edge_io::{Keys, List};
use fort_syntax::{Deck, Refusal};
use name_tables::NameSet;
use smash_rules::smash_fault;
use smash_table::smash_table;
use std::alloc::Global;

/// The names that each unit of a deck smashes, where the order of its calls is known; or the first
/// fault of the rules on smashed names.
fn table_of(alloc: Global, keys: Keys, deck: &Deck, order: &[u32]) -> Result<Vec<NameSet>, Refusal>
    requires well { (dialect : Dialect) × IsWellFormed dialect deck.now }
    requires order { IsCallOrder deck.now.units order.now }
    ensures table { IfOk result (λ rows. HaveTable deck.now.units rows.items) }
    ensures kept { IfOk result (λ rows. KeepSmashing deck.now.units rows.items) }
    ensures broken { (f : Fault) → result ≡ Err (Broken f) → IsSmashFault deck.now.units f }
{
    let Ok(book) = DeckBook::new(alloc, keys, deck.units.as_slice()) else {
        return Err(Refusal::NoMemory);
    };
    let Ok(table) = smash_table(alloc, keys, &book, order) else {
        return Err(Refusal::NoMemory);
    };
    let Ok(fault) = smash_fault(alloc, keys, &book, table.as_slice()) else {
        return Err(Refusal::NoMemory);
    };
    match fault {
        Some(fault) => Err(Refusal::Broken(fault)),
        None => Ok(table),
    }
}

/// The order of the calls of a deck, and the names that each of its units smashes.
#[derive(Drop)]
pub(crate) struct Smashing {
    pub order: List<u32>,
    pub rows: Vec<NameSet>,
}

/// The order of the calls of a deck, and the names that each unit smashes; or the first fault of the
/// rules on calls, or else of those on smashed names.
pub(crate) fn smashed(alloc: Global, keys: Keys, deck: &Deck) -> Result<Smashing, Refusal>
    requires { (dialect : Dialect) × IsWellFormed dialect deck.now }
    ensures ordered { IfOk result (λ s. AreCallsKnown deck.now.units s.order) }
    ensures table { IfOk result (λ s. HaveTable deck.now.units s.rows.items) }
    ensures calls_kept { IfOk result (λ _. KeepCalls deck.now.units) }
    ensures smashing_kept { IfOk result (λ s. KeepSmashing deck.now.units s.rows.items) }
    ensures broken { (f : Fault) → result ≡ Err (Broken f) → IsAliasFault deck.now.units f }
{
    match call_stage(alloc, keys, deck) {
        Ok(ordered) => {
            let Ordered { order, callees: _ } = ordered;
            match table_of(alloc, keys, deck, order.as_slice()) {
                Ok(rows) => Ok(Smashing { order, rows }),
                Err(refusal) => Err(refusal),
            }
        }
        Err(refusal) => Err(refusal),
    }
}
