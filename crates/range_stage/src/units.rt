// One unit after the other.
ghost use Rattle.std.specs.Prelude.{◌≡◌, IsTrue, List, length, Err, IfOk};
ghost use Rattle.formula.specs.declared.node.Node.{Node};
ghost use Rattle.fort_syntax.specs.DeckOrder.{stand_between};
ghost use Rattle.fort_syntax.specs.WellFormed.{AreWellFormedUnits, IsWellFormed};
ghost use Rattle.fort_syntax.specs.declared.deck.Deck.{Deck};
ghost use Rattle.fort_syntax.specs.declared.dialect.Dialect.{Dialect};
ghost use Rattle.fort_syntax.specs.declared.refusal.Fault.{Fault};
ghost use Rattle.fort_syntax.specs.declared.refusal.Refusal.TheVariants.{Broken};
ghost use Rattle.fort_model.specs.Fitting.{HasFittingNotes};
ghost use Rattle.fort_model.specs.Program.{Program};
ghost use Rattle.fort_model.specs.Stages.{IsFirstBroken, KeepsAll, rules_of_ranges};
ghost use Rattle.do_ranges.specs.Stage.{TellsRanges};
ghost use Rattle.path_scene.specs.Scenes.{IsScene};
ghost use Rattle.range_stage.specs.Ranges.{TellsAllRanges};

use do_ranges::check_ranges;
use edge_io::NoMemory;
use fort_notes::UnitSpec;
use fort_syntax::{Fault, Refusal, Unit};
use path_scene::Scene;
use std::alloc::Global;
use unit_faults::sooner;

/// The first fault of a unit, if it has one.
fn unit_fault(alloc: Global, unit: &Unit, spec: &UnitSpec) -> Result<Option<Fault>, NoMemory>
    requires { IsTrue (stand_between unit.now.head unit.now.lines unit.now.«end») }
    ensures { IfOk result (TellsRanges unit.now spec.now) }
{
    match check_ranges(alloc, unit, spec) {
        Ok(()) => Ok(None),
        Err(Refusal::Broken(fault)) => Ok(Some(fault)),
        Err(Refusal::NoMemory) => Err(NoMemory),
    }
}

/// The first fault of some units, if they have one.
fn first_fault(alloc: Global, units: &[Unit], specs: &[UnitSpec]) -> Result<Option<Fault>, NoMemory>
    requires long { length specs.now ≡ length units.now }
    requires well { (d : Dialect) × AreWellFormedUnits d units.now }
    ensures { IfOk result (TellsAllRanges units.now specs.now) }
{
    let mut first = None;
    for number in 0..units.len() {
        let Ok(fault) = unit_fault(alloc, &units[number], &specs[number]) else {
            return Err(NoMemory);
        };
        first = sooner(first, fault);
    }
    Ok(first)
}

/// Judges the ranges of DOs and blocks of all units of a scene, the jumps into them, and the clocks, rules 26, 27, 28 and 36. The
/// units are those of a deck that is well formed, and their notes fit them. Ok: the program of the scene keeps the rules. Broken:
/// its first fault, on the least card and there of the least number. Else memory was wanted and not had.
pub fn check_units(alloc: Global, scene: &Scene) -> Result<(), Refusal>
    requires noted { (pool : List Node) × (p : Program) × (deck : Deck) × IsScene pool scene.now p
        × (deck.units ≡ p.units) × IsWellFormed p.dialect deck × HasFittingNotes p }
    ensures kept { IfOk result (λ _. (pool : List Node) (p : Program) → IsScene pool scene.now p
        → KeepsAll p rules_of_ranges) }
    ensures broken { (f : Fault) → result ≡ Err (Broken f) → (pool : List Node) (p : Program)
        → IsScene pool scene.now p → IsFirstBroken p rules_of_ranges f }
{
    match first_fault(alloc, scene.books.units, scene.notes) {
        Ok(None) => Ok(()),
        Ok(Some(fault)) => Err(Refusal::Broken(fault)),
        Err(NoMemory) => Err(Refusal::NoMemory),
    }
}
