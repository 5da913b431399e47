// The paths through a graph, one at a time.
ghost use Rattle.std.specs.Prelude.{◌≡◌, drop, slice_get, is_some, option_map, IfOk, IfSome};
ghost use Rattle.std.specs.Borrow.{sem};
ghost use Rattle.path_cut.specs.Ways.{ways_of};
ghost use Rattle.path_cut.specs.Cursor.{ways_left, way_at, way_seen, SharesView};

use crate::course::{Course, Stage};
use crate::flow::Flow;
use crate::limits::limit;
use crate::step::Step;
use crate::trail::Trail;
use edge_io::NoMemory;
use fort_model::{Graph, Target};
use std::alloc::Global;

/// A path: the number of its start, 0 for the entry and else that of an ASSERT, counted from 1; its
/// steps; the point that ends it; and how many of its first steps the path before has too.
#[derive(Drop)]
pub struct PathView<'a> {
    pub start: usize,
    pub steps: &'a [Step],
    pub end: u32,
    pub shared: usize,
}

/// The paths through a graph that are left, in order. Contracts see the list of them as
/// `ways_left`, and the path that it stands at as `way_at`.
#[derive(Drop)]
pub struct Paths<'a> {
    flow: Flow<'a>,
    course: Course,
}

impl<'a> Paths<'a> {
    /// Before the first path. All memory is taken here.
    pub fn new(alloc: Global, graph: &'a Graph) -> Result<Paths<'a>, NoMemory>
        ensures { IfOk result (λ p. ways_left p ≡ ways_of graph.now) }
    {
        let Ok(flow) = Flow::new(alloc, graph) else {
            return Err(NoMemory);
        };
        let Ok(steps) = Trail::new(alloc, limit(graph)) else {
            return Err(NoMemory);
        };
        let course = Course {
            start: 0,
            steps,
            shared: 0,
            stage: Stage::On(Target::Point(0)),
        };
        Ok(Paths { flow, course })
    }

    /// To the next path: false where there is none, and then for good. It takes no memory, and time
    /// for the steps that the path before has not.
    pub fn advance(&mut self) -> bool
        ensures found { result ≡ is_some (slice_get (ways_left self.old) 0) }
        ensures way { way_at self.new ≡ slice_get (ways_left self.old) 0 }
        ensures left { ways_left self.new ≡ drop 1 (ways_left self.old) }
        ensures shared { SharesView self.old self.new }
    {
        self.course.advance(&self.flow)
    }

    /// The path that it stands at; none before the first and behind the last.
    pub fn view(&self) -> Option<PathView<'_>>
        ensures way { option_map way_seen result ≡ way_at self.now }
        ensures shared { IfSome result (λ v. v.shared ≡ self.now.course.shared) }
    {
        match self.course.stage {
            Stage::Ended(end) => Some(PathView {
                start: self.course.start,
                steps: self.course.steps.as_slice(),
                end,
                shared: self.course.shared,
            }),
            _ => None,
        }
    }
}
