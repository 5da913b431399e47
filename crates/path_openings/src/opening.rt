// A walk at the entry.
ghost use Rattle.std.specs.Prelude.{IfOk};
ghost use Rattle.fort_model.specs.Program.{Program};
ghost use Rattle.path_plans.specs.Plans.{IsPlan};
ghost use Rattle.path_scene.specs.Scenes.{IsReady};
ghost use Rattle.path_openings.specs.Openings.{HasBegun};

use edge_io::{Keys, NoMemory};
use formula::{TermId, TermPool};
use path_plans::Plan;
use path_starts::{begin, take_entry};
use std::alloc::Global;
use walk_state::Walk;

/// A walk, and the terms that the names of its table stood for at the entry, at their places.
#[derive(Drop)]
pub struct Begun {
    pub walk: Walk,
    pub entry: Vec<TermId>,
}

/// A walk at the entry of a unit, where what holds there was taken. No answer depends on the keys.
pub fn enter(alloc: Global, keys: Keys, pool: TermPool, plan: &Plan) -> Result<Begun, NoMemory>
    requires plan { IsPlan plan.now }
    requires ready { (p : Program) × IsReady pool plan.now.setting.now.scene.now p }
    ensures { IfOk result (λ begun. HasBegun plan.now pool begun) }
{
    let unit = plan.setting.book.unit;
    let Ok(mut walk) = begin(alloc, keys, pool, unit) else {
        return Err(NoMemory);
    };
    let Ok(entry) = Vec::from_slice(alloc, walk.names.terms.as_slice()) else {
        return Err(NoMemory);
    };
    let Ok(()) = take_entry(&mut walk, plan, &entry) else {
        return Err(NoMemory);
    };
    Ok(Begun { walk, entry })
}
