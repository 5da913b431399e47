// What is found along the paths of a unit.
ghost use Rattle.path_cond.specs.Found.{drafts_of};
ghost use Rattle.path_cut.specs.declared.step.Step.{Step};
ghost use Rattle.path_fronts.specs.Fronts.{IsFront};
ghost use Rattle.std.specs.Prelude.{◌≡◌, List, ℕ};
ghost use Rattle.walk_setting.specs.declared.setting.Setting.{Setting};

use crate::found::Drafts;
use fort_syntax::Condition;
use path_fronts::Front;
use std::alloc::Global;
use walk_state::Walk;

/// The conditions so far, and the walk along the last path, whose pool has their terms.
#[derive(Drop)]
pub(crate) struct Walked {
    pub(crate) alloc: Global,
    pub(crate) front: Front,
    pub(crate) conditions: Vec<Condition>,
}

impl Walked {
    /// The conditions so far, before the first path of a unit.
    pub(crate) fn new(drafts: Drafts) -> Walked
        ensures same { drafts_of result ≡ drafts }
        ensures front { (s : Setting) (steps : List Step) (bound : ℕ) → IsFront s steps bound result.front }
    {
        let Drafts {
            alloc,
            pool,
            conditions,
        } = drafts;
        let keys = pool.keys();
        Walked {
            alloc,
            front: Front::new(alloc, keys, pool),
            conditions,
        }
    }

    /// The conditions so far.
    pub(crate) fn drafts(self) -> Drafts
        ensures { result ≡ drafts_of self }
    {
        let Walked {
            alloc,
            front,
            conditions,
        } = self;
        let Front { walk, .. } = front;
        let Walk { pool, .. } = walk;
        Drafts {
            alloc,
            pool,
            conditions,
        }
    }
}
