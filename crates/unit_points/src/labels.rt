// A table of labels.
ghost use Rattle.std.specs.Prelude.{◌≡◌, IfOk};
ghost use Rattle.unit_points.specs.Labels.{point_of, AreLabelsOf};

use edge_io::NoMemory;
use fort_syntax::Line;
use std::alloc::Global;
use std::collections::BTreeMap;

/// The points of the labels of a unit's statements. A tree keeps them, so nobody can choose labels that are slow to find.
#[derive(Drop)]
pub struct Labels {
    places: BTreeMap<u32, usize>,
    count: usize,
}

impl Labels {
    /// The labels of some statements, which stand at the points from 0 on; or want of memory.
    pub fn new(alloc: Global, lines: &[Line]) -> Result<Labels, NoMemory>
        ensures { IfOk result (AreLabelsOf lines.now) }
    {
        let mut places = BTreeMap::new(alloc);
        for i in (0..lines.len()).rev() {
            let Ok(_) = places.insert(lines[i].label, i) else {
                return Err(NoMemory);
            };
        }
        Ok(Labels {
            places,
            count: lines.len(),
        })
    }

    /// The point of the first statement with a label; the number of statements where none has it.
    pub fn point(&self, label: u32) -> usize
        ensures { result ≡ point_of self.now label }
    {
        match self.places.get(&label) {
            Some(place) => *place,
            None => self.count,
        }
    }
}
