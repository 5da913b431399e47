// Rules 29 and 30.
ghost use Rattle.std.specs.Prelude.{◌≡◌, ◌<◌, List, length, IfOk};
ghost use Rattle.formula.specs.declared.node.Node.{Node};
ghost use Rattle.fort_model.specs.Program.{Program};
ghost use Rattle.path_scene.specs.Scenes.{IsReady};
ghost use Rattle.flow_graph.specs.Units.{TellsEarly};

use do_smashes::smashed_in_do;
use edge_io::{Keys, NoMemory};
use flow_ends::off_end;
use fort_syntax::Fault;
use path_scene::Scene;
use std::alloc::Global;
use unit_faults::sooner;

/// The first fault of the unit of a number by rules 29 and 30, if it has one.
pub(crate) fn early_fault(
    alloc: Global,
    keys: Keys,
    scene: &Scene,
    number: usize,
) -> Result<Option<Fault>, NoMemory>
    requires unit { number < length scene.now.books.now.units.now }
    requires ready { (pool : List Node) × (p : Program) × IsReady pool scene.now p }
    ensures { IfOk result (TellsEarly scene.now number) }
{
    let book = scene.books.book(number);
    let Ok(smashed) = smashed_in_do(alloc, keys, scene.books, scene.smashes, book) else {
        return Err(NoMemory);
    };
    let ended = off_end(scene.dialect, book.unit);
    Ok(sooner(smashed, ended))
}
