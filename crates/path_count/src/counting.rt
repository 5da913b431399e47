// Counting the paths through a graph.
ghost use Rattle.std.specs.Prelude.{◌≡◌, ◌<◌, length, IfOk};
ghost use Rattle.path_cut.specs.Ways.{ways_of};
ghost use Rattle.path_count.specs.Counts.{count_up_to};

use edge_io::NoMemory;
use fort_model::Graph;
use path_cut::Paths;
use std::alloc::Global;

/// The number of the paths through a graph, where it is no more than `room`, and else None. It looks
/// at no more than `room` paths and one more.
pub fn count_paths(alloc: Global, graph: &Graph, room: u32) -> Result<Option<u32>, NoMemory>
    ensures { IfOk result (λ count. count ≡ count_up_to room (length (ways_of graph.now))) }
{
    let Ok(mut paths) = Paths::new(alloc, graph) else {
        return Err(NoMemory);
    };
    for count in 0..room {
        if !paths.advance() {
            return Ok(Some(count));
        }
    }
    if paths.advance() {
        return Ok(None);
    }
    Ok(Some(room))
}
