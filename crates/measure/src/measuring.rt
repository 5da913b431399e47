// The sizes of all units.
ghost use Rattle.std.specs.Prelude.{◌≡◌, List, Err, IfOk, OnOk};
ghost use Rattle.fort_syntax.specs.declared.refusal.Fault.{Fault};
ghost use Rattle.fort_syntax.specs.declared.refusal.Refusal.TheVariants.{Broken};
ghost use Rattle.fort_model.specs.Conditions.{AreAllPaths};
ghost use Rattle.fort_model.specs.Paths.{Path};
ghost use Rattle.fort_model.specs.Program.{Program};
ghost use Rattle.path_scene.specs.Graphs.{AreGraphsOf};
ghost use Rattle.path_scene.specs.Scenes.{IsReady};
ghost use Rattle.path_sizes.specs.Limits.{IsSizeFault, IsWithinLimits};
ghost use Rattle.measure.specs.Sizes.{AreCountsOf};

use crate::Counts;
use crate::totals::Totals;
use crate::units::measure_unit;
use crate::whole::Whole;
use edge_io::Keys;
use formula::TermPool;
use fort_model::Graph;
use fort_syntax::Refusal;
use path_scene::Scene;
use std::alloc::Global;
use unit_tables::UnitNumbers;

/// Measures the units of a program, one after another, by their graphs.
fn measure_units(whole: &Whole, graphs: &[Graph]) -> Result<Counts, Refusal>
    requires ready { (p : Program) × IsReady whole.now.pool.now whole.now.scene.now p }
    requires graphs { (p : Program) → IsReady whole.now.pool.now whole.now.scene.now p
        → AreGraphsOf p graphs.now }
    ensures within { OnOk result ((p : Program) → IsReady whole.now.pool.now whole.now.scene.now p
        → (paths : List (List Path)) → AreAllPaths p paths → IsWithinLimits p paths) }
    ensures counted { IfOk result (λ c. (p : Program)
        → IsReady whole.now.pool.now whole.now.scene.now p → (paths : List (List Path))
        → AreAllPaths p paths → AreCountsOf p paths c) }
    ensures broken { (f : Fault) → result ≡ Err (Broken f) → (p : Program)
        → IsReady whole.now.pool.now whole.now.scene.now p → IsSizeFault p f }
{
    let mut totals = Totals {
        paths: 0,
        conditions: 0,
        weight: 0,
    };
    for number in 0..graphs.len() {
        match measure_unit(whole, number, &graphs[number], totals) {
            Ok(behind) => totals = behind,
            Err(refusal) => return Err(refusal),
        }
    }
    Ok(Counts {
        paths: totals.paths,
        conditions: totals.conditions,
    })
}

/// Measures a program, whose units have these graphs. Ok: along all paths its sizes are within the limits, and
/// so many are its paths and its conditions. Broken: its fault of sizes, at the head of the first unit that
/// passes a limit, by the first limit that it passes. Else memory was wanted and not had. No answer depends on
/// the keys.
pub fn measure(
    alloc: Global,
    keys: Keys,
    pool: &TermPool,
    scene: &Scene,
    graphs: &[Graph],
) -> Result<Counts, Refusal>
    requires ready { (p : Program) × IsReady pool.now scene.now p }
    requires graphs { (p : Program) → IsReady pool.now scene.now p → AreGraphsOf p graphs.now }
    ensures within { OnOk result ((p : Program) → IsReady pool.now scene.now p
        → (paths : List (List Path)) → AreAllPaths p paths → IsWithinLimits p paths) }
    ensures counted { IfOk result (λ c. (p : Program) → IsReady pool.now scene.now p
        → (paths : List (List Path)) → AreAllPaths p paths → AreCountsOf p paths c) }
    ensures broken { (f : Fault) → result ≡ Err (Broken f) → (p : Program)
        → IsReady pool.now scene.now p → IsSizeFault p f }
{
    let Ok(numbers) = UnitNumbers::new(alloc, keys, scene.books.units) else {
        return Err(Refusal::NoMemory);
    };
    let whole = Whole {
        alloc,
        keys,
        pool,
        scene,
        numbers: &numbers,
    };
    match measure_units(&whole, graphs) {
        Ok(counts) => Ok(counts),
        Err(refusal) => Err(refusal),
    }
}
