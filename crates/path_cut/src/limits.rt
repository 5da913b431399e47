// How long a way through a graph can be.
ghost use Rattle.std.specs.Prelude.{◌≡◌};
ghost use Rattle.path_cut.specs.Ways.{limit_of};

use fort_model::Graph;

/// More steps than a way through the graph of a unit has.
pub(crate) fn limit(graph: &Graph) -> usize
    ensures { result ≡ limit_of graph.now }
{
    graph.size as usize + graph.forks.as_slice().len() + 3
}
