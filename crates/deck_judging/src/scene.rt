// The stages of the rules on ranges, on flow and on sizes, and the conditions.
ghost use Rattle.std.specs.Prelude.{◌≡◌, List, Err, IfOk};
ghost use Rattle.std.specs.List.{All};
ghost use Rattle.formula.specs.Pool.{Grows};
ghost use Rattle.fort_syntax.specs.declared.refusal.Fault.{Fault};
ghost use Rattle.fort_syntax.specs.declared.refusal.Refusal.TheVariants.{Broken};
ghost use Rattle.event_text.specs.Conditions.{IsConditionIn};
ghost use Rattle.fort_model.specs.Program.{Program};
ghost use Rattle.path_scene.specs.Graphs.{AreGraphsOf};
ghost use Rattle.path_scene.specs.Scenes.{IsReady};
ghost use Rattle.path_sizes.specs.Limits.{IsSizeFault};
ghost use Rattle.deck_judging.specs.Stages.{AreAllConditions, IsAliased, IsFlowFault, IsSceneFault, KeepsFlow, KeepsScene};

use edge_io::{Keys, List, NoMemory};
use flow_stage::graphs;
use formula::TermPool;
use fort_model::Graph;
use fort_syntax::{Condition, Refusal};
use measure::measure;
use path_cond::{Conditions, conditions};
use path_scene::Scene;
use range_stage::check_units;
use std::alloc::Global;

/// The conditions of a program with the pool of their terms, and how many paths it has.
#[derive(Drop)]
pub(crate) struct Found {
    pub pool: TermPool,
    pub conditions: List<Condition>,
    pub paths: u32,
}

/// The conditions of a program, whose units have these graphs; or its fault of sizes.
fn conditions_of_graphs(
    alloc: Global,
    keys: Keys,
    pool: TermPool,
    scene: &Scene,
    graphs: &[Graph],
) -> Result<Found, Refusal>
    requires ready { (p : Program) × IsReady pool scene.now p }
    requires graphs { (p : Program) → IsReady pool scene.now p → AreGraphsOf p graphs.now }
    ensures grows { IfOk result (λ c. Grows pool c.pool) }
    ensures inside { IfOk result (λ c. All (IsConditionIn c.pool) c.conditions) }
    ensures conditions { IfOk result (λ c. (p : Program) → IsReady pool scene.now p
        → AreAllConditions p c.pool c.conditions c.paths) }
    ensures broken { (f : Fault) → result ≡ Err (Broken f) → (p : Program)
        → IsReady pool scene.now p → IsSizeFault p f }
{
    match measure(alloc, keys, &pool, scene, graphs) {
        Err(refusal) => Err(refusal),
        Ok(counts) => match conditions(alloc, keys, pool, scene, graphs) {
            Ok(Conditions { pool, conditions }) => Ok(Found {
                pool,
                conditions,
                paths: counts.paths,
            }),
            Err(NoMemory) => Err(Refusal::NoMemory),
        },
    }
}

/// The conditions of a program that keeps the rules on ranges; or its first fault in the flow, or
/// else of sizes.
fn conditions_of_ready(
    alloc: Global,
    keys: Keys,
    pool: TermPool,
    scene: &Scene,
) -> Result<Found, Refusal>
    requires ready { (p : Program) × IsReady pool scene.now p }
    ensures grows { IfOk result (λ c. Grows pool c.pool) }
    ensures inside { IfOk result (λ c. All (IsConditionIn c.pool) c.conditions) }
    ensures kept { IfOk result (λ c. (p : Program) → IsReady pool scene.now p → KeepsFlow p) }
    ensures conditions { IfOk result (λ c. (p : Program) → IsReady pool scene.now p
        → AreAllConditions p c.pool c.conditions c.paths) }
    ensures broken { (f : Fault) → result ≡ Err (Broken f) → (p : Program)
        → IsReady pool scene.now p → IsFlowFault p f }
{
    match graphs(alloc, keys, scene) {
        Ok(graphs) => conditions_of_graphs(alloc, keys, pool, scene, graphs.as_slice()),
        Err(refusal) => Err(refusal),
    }
}

/// The conditions of a program that keeps the rules on calls and on smashed names; or its first
/// fault in ranges, or else in the flow, or else of sizes.
pub(crate) fn conditions_of_scene(
    alloc: Global,
    keys: Keys,
    pool: TermPool,
    scene: &Scene,
) -> Result<Found, Refusal>
    requires aliased { (p : Program) × IsAliased pool scene.now p }
    ensures grows { IfOk result (λ c. Grows pool c.pool) }
    ensures inside { IfOk result (λ c. All (IsConditionIn c.pool) c.conditions) }
    ensures kept { IfOk result (λ c. (p : Program) → IsAliased pool scene.now p → KeepsScene p) }
    ensures conditions { IfOk result (λ c. (p : Program) → IsAliased pool scene.now p
        → AreAllConditions p c.pool c.conditions c.paths) }
    ensures broken { (f : Fault) → result ≡ Err (Broken f) → (p : Program)
        → IsAliased pool scene.now p → IsSceneFault p f }
{
    match check_units(alloc, scene) {
        Ok(()) => conditions_of_ready(alloc, keys, pool, scene),
        Err(refusal) => Err(refusal),
    }
}
