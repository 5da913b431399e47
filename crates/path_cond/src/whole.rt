// The conditions of all units.
ghost use Rattle.std.specs.Prelude.{◌≡◌, List, map, IfOk};
ghost use Rattle.std.specs.List.{All};
ghost use Rattle.event_text.specs.Conditions.{IsConditionIn, condition_tree};
ghost use Rattle.formula.specs.Pool.{Grows};
ghost use Rattle.fort_model.specs.Conditions.{AreAllPaths, conditions_of};
ghost use Rattle.fort_model.specs.Paths.{Path};
ghost use Rattle.fort_model.specs.Program.{Program};
ghost use Rattle.path_scene.specs.Graphs.{AreGraphsOf};
ghost use Rattle.path_scene.specs.Scenes.{IsReady};
ghost use Rattle.path_sizes.specs.Limits.{IsWithinLimits};

use crate::found::{Conditions, Drafts};
use crate::units::add_unit;
use edge_io::{Keys, List, NoMemory};
use formula::TermPool;
use fort_model::Graph;
use path_scene::Scene;
use std::alloc::Global;
use unit_tables::UnitNumbers;

/// The conditions of a program that is within the limits, unit after unit, path after path, check
/// after check. No answer depends on the keys.
pub fn conditions(
    alloc: Global,
    keys: Keys,
    pool: TermPool,
    scene: &Scene,
    graphs: &[Graph],
) -> Result<Conditions, NoMemory>
    requires ready { (p : Program) × IsReady pool scene.now p }
    requires graphs { (p : Program) → IsReady pool scene.now p → AreGraphsOf p graphs.now }
    requires within { (p : Program) → IsReady pool scene.now p → (paths : List (List Path))
        → AreAllPaths p paths → IsWithinLimits p paths }
    ensures grows { IfOk result (λ c. Grows pool c.pool) }
    ensures trees { IfOk result (λ c. (p : Program) → IsReady pool scene.now p
        → (paths : List (List Path)) → AreAllPaths p paths
        → map (condition_tree c.pool) c.conditions ≡ conditions_of p paths) }
    ensures inside { IfOk result (λ c. All (IsConditionIn c.pool) c.conditions) }
{
    let Ok(numbers) = UnitNumbers::new(alloc, keys, scene.books.units) else {
        return Err(NoMemory);
    };
    let mut drafts = Drafts {
        alloc,
        pool,
        conditions: Vec::new(alloc),
    };
    for number in 0..graphs.len() {
        let Ok(after) = add_unit(drafts, scene, &numbers, number, &graphs[number]) else {
            return Err(NoMemory);
        };
        drafts = after;
    }
    let Drafts {
        pool,
        conditions,
        ..
    } = drafts;
    Ok(Conditions {
        pool,
        conditions: List::from_vec(conditions),
    })
}
