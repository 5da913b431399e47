// A graph to be walked through.
ghost use Rattle.std.specs.Prelude.{◌≡◌, ◌+◌, ◌<◌, ◌^◌, false, replicate, IfOk, IfSome, slice_get};
ghost use Rattle.path_cut.specs.Ways.{targets_of, is_marked, marks_of, marked};

use edge_io::NoMemory;
use fort_model::{Graph, Target};
use std::alloc::Global;

/// A graph with marks on the statements that have an ASSERT.
#[derive(Drop)]
pub(crate) struct Flow<'a> {
    pub(crate) graph: &'a Graph,
    pub(crate) marks: Vec<bool>,
}

// No marks.
fn unmarked(alloc: Global, size: u32) -> Result<Vec<bool>, NoMemory>
    ensures { IfOk result (λ m. m.items ≡ replicate size false) }
{
    let mut marks = Vec::with_capacity(alloc, size as usize)?;
    for _ in 0..size {
        let Ok(()) = marks.push(false) else {
            return Err(NoMemory);
        };
    }
    Ok(marks)
}

// Marks the points of the ASSERTs.
fn mark(marks: &mut [bool], cuts: &[u32])
    ensures { marks.new ≡ marked marks.old cuts.now }
{
    for cut in cuts {
        let point = *cut as usize;
        if point < marks.len() {
            marks[point] = true;
        }
    }
}

impl<'a> Flow<'a> {
    pub(crate) fn new(alloc: Global, graph: &'a Graph) -> Result<Flow<'a>, NoMemory>
        ensures graph { IfOk result (λ f. f.graph.now ≡ graph.now) }
        ensures marks { IfOk result (λ f. f.marks.items ≡ marks_of graph.now) }
    {
        let mut marks = unmarked(alloc, graph.size)?;
        mark(&mut marks, graph.cuts.as_slice());
        Ok(Flow { graph, marks })
    }

    /// Whether paths end at a point.
    pub(crate) fn is_cut(&self, point: u32) -> bool
        ensures { result ≡ is_marked self.now.marks.items point }
    {
        match self.marks.get(point as usize) {
            Some(mark) => *mark,
            None => true,
        }
    }

    /// What the statement at a point leads to, where there is one.
    pub(crate) fn start(&self, point: u32) -> Option<Target>
        ensures { result ≡ slice_get self.now.graph.now.starts point }
    {
        self.graph.starts.as_slice().get(point as usize).copied()
    }

    /// The next target of a fork behind those that were tried.
    pub(crate) fn turn(&self, fork: u32, tried: usize) -> Option<Target>
        ensures target { result ≡ slice_get (targets_of (slice_get self.now.graph.now.forks fork)) tried }
        ensures small { IfSome result (λ _. tried + 1 < 2 ^ 64) }
    {
        let Some(fork) = self.graph.forks.as_slice().get(fork as usize) else {
            return None;
        };
        let targets = fork.targets.as_slice();
        if tried >= targets.len() {
            return None;
        }
        Some(targets[tried])
    }

    /// The point of an ASSERT by its number, counted from 0.
    pub(crate) fn cut(&self, number: usize) -> Option<u32>
        ensures cut { result ≡ slice_get self.now.graph.now.cuts number }
        ensures small { IfSome result (λ _. number + 1 < 2 ^ 64) }
    {
        let cuts = self.graph.cuts.as_slice();
        if number >= cuts.len() {
            return None;
        }
        Some(cuts[number])
    }
}
