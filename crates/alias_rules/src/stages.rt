// The stages of the rules on calls and on smashed names.
ghost use Rattle.std.specs.Prelude.{◌≡◌, Err, IfOk};
ghost use Rattle.fort_syntax.specs.WellFormed.{IsWellFormed};
ghost use Rattle.fort_syntax.specs.declared.dialect.Dialect.{Dialect};
ghost use Rattle.fort_syntax.specs.declared.refusal.Fault.{Fault};
ghost use Rattle.fort_syntax.specs.declared.refusal.Refusal.TheVariants.{Broken};
ghost use Rattle.fort_model.specs.CallFacts.{AreCallFacts};
ghost use Rattle.fort_model.specs.Program.{Program};
ghost use Rattle.fort_model.specs.Stages.{KeepsAll, rules_of_calls, rules_of_smashing};
ghost use Rattle.alias_rules.specs.Stages.{IsAliasFault};

use crate::smashing::smashing;
use call_rules::call_stage;
use edge_io::Keys;
use fort_model::CallFacts;
use fort_syntax::{Deck, Refusal};
use std::alloc::Global;

/// The facts of the calls of a deck that is well formed in some dialect: the order in which each unit stands behind those that it
/// calls, for each unit the names that it smashes, and the units that its calls are of. They hold of every program of these
/// units with this table, whatever its notes, bound and dialect; and each such program keeps the rules on calls, 37 to 40 and 44,
/// and those on smashed names, 41 to 43, 45 and 49.
///
/// An error says the first fault: that of the rules on calls, in every program of these units; or, where these are kept, that of
/// the rules on smashed names, in every program of these units with their table of smashed names. Or it says that memory was
/// wanted and not had. No answer depends on the keys.
pub fn calls(alloc: Global, keys: Keys, deck: &Deck) -> Result<CallFacts, Refusal>
    requires { (dialect : Dialect) × IsWellFormed dialect deck.now }
    ensures facts { IfOk result (λ facts. (p : Program) → p.units ≡ deck.now.units
        → p.smashes ≡ facts.smashes → AreCallFacts p facts) }
    ensures calls_kept { IfOk result (λ facts. (p : Program) → p.units ≡ deck.now.units
        → KeepsAll p rules_of_calls) }
    ensures smashing_kept { IfOk result (λ facts. (p : Program) → p.units ≡ deck.now.units
        → p.smashes ≡ facts.smashes → KeepsAll p rules_of_smashing) }
    ensures broken { (f : Fault) → result ≡ Err (Broken f) → IsAliasFault deck.now.units f }
{
    match call_stage(alloc, keys, deck) {
        Ok(ordered) => smashing(alloc, keys, deck, ordered),
        Err(refusal) => Err(refusal),
    }
}
