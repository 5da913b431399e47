// The types of what smashed names stand for.
ghost use Rattle.std.specs.Prelude.{◌≡◌, IfSome, OnOk};
ghost use Rattle.fort_syntax.specs.Names.{data_name};
ghost use Rattle.fort_syntax.specs.declared.name.Name.{Name as Text};
ghost use Rattle.fort_model.specs.Events.{takes};
ghost use Rattle.fort_model.specs.Seen.{meet};
ghost use Rattle.fort_model.specs.Senses.{of_terms};
ghost use Rattle.fort_model.specs.WalkPlaces.{sorts};
ghost use Rattle.walk_places.specs.Shapes.{IsGoodShape};
ghost use Rattle.walk_state.specs.Moments.{Did, Follows, IsWalk, moment};

use call_sites::Book;
use edge_io::NoMemory;
use fort_syntax::Name;
use walk_places::sort_in;
use walk_state::Walk;

/// What each of some names stands for has the type and the size that the unit gives the name.
pub fn take_sorts(walk: &mut Walk, caller: &Book, names: &[Name]) -> Result<(), NoMemory>
    requires well { IsWalk walk.old }
    requires shapes { (x : Text) → IfSome (data_name caller.now.unit.now x) (λ d. IsGoodShape d.dims) }
    ensures on { Follows walk.old walk.new }
    ensures did { OnOk result (Did (moment walk.old)
        (meet (takes (sorts of_terms caller.now.unit.now (moment walk.old).now names.now)))
        (moment walk.new) tt) }
{
    for name in names {
        let entity = caller.data(name);
        let Ok(fact) = sort_in(walk.alloc, &mut walk.pool, &walk.names, name, entity) else {
            return Err(NoMemory);
        };
        walk.take(fact)?;
    }
    Ok(())
}
