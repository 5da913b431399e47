// A mark before a statement.
ghost use Rattle.path_cut.specs.declared.step.Step.{Step};
ghost use Rattle.path_fronts.specs.Fronts.{HasEntry, IsFront, Reaches};
ghost use Rattle.shared_fronts.specs.Firsts.{HasAt};
ghost use Rattle.std.specs.Prelude.{◌≡◌, List, OnOk, suc};
ghost use Rattle.walk_setting.specs.declared.setting.Setting.{Setting};

use crate::front::{Front, Mark};
use edge_io::NoMemory;

/// Sets a mark before the statement of the step at a place, where the statement before has a card.
pub(crate) fn set_mark(front: &mut Front, place: usize, card: u32) -> Result<(), NoMemory>
    ensures start { OnOk result (front.new.start ≡ front.old.start) }
    ensures pool { OnOk result (front.new.walk.pool ≡ front.old.walk.pool) }
    ensures front { OnOk result ((s : Setting) (steps : List Step) → HasEntry s front.old
        → IsFront s steps place front.old → Reaches s steps place card front.old → HasAt steps place
        → IsFront s steps (suc place) front.new) }
    ensures told { OnOk result ((s : Setting) → HasEntry s front.old → HasEntry s front.new) }
    ensures at { OnOk result ((s : Setting) (steps : List Step) → IsFront s steps place front.old
        → Reaches s steps place card front.old → Reaches s steps place card front.new) }
{
    let mark = Mark {
        place,
        met: front.walk.met.len(),
        calls: front.walk.calls,
        card,
    };
    let Ok(()) = front.walk.names.keep() else {
        return Err(NoMemory);
    };
    let Ok(()) = front.marks.push(mark) else {
        return Err(NoMemory);
    };
    Ok(())
}
