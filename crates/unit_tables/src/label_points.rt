// The points of labels.
ghost use Rattle.std.specs.Prelude.{◌≡◌, ◌≤◌, [], length, IfOk, OnOk};
ghost use Rattle.fort_model.specs.Flow.{target};
ghost use Rattle.unit_tables.specs.Tables.{ArePointsOf, TellsPoint};

use edge_io::{Keys, NoMemory};
use fort_syntax::Line;
use indexmap::IndexMap;
use std::alloc::Global;
use std::marker::Model;

/// The statements of a unit by label. Contracts see the list of the labels with their points; where
/// a label stands twice, the first statement counts.
#[derive(Drop)]
pub struct LabelPoints {
    map: IndexMap<u32, usize, Keys>,
}

impl Model for LabelPoints {
    ghost use Rattle.std.specs.Prelude.{List, ℕ};

    ghost Value = { List (ℕ × ℕ) };

    ghost view = { λ t. t.map.entries };
}

impl LabelPoints {
    fn put(&mut self, label: u32, point: usize) -> Result<(), NoMemory>
        ensures { OnOk result (TellsPoint self.old self.new label point) }
    {
        match self.map.insert(label, point) {
            Ok(_) => Ok(()),
            Err(_) => Err(NoMemory),
        }
    }

    fn empty(alloc: Global, keys: Keys) -> LabelPoints
        ensures { result ≡ [] }
    {
        LabelPoints {
            map: IndexMap::with_hasher(alloc, keys),
        }
    }

    /// The table of the statements of a unit, in time for them. No answer depends on the keys.
    pub fn new(alloc: Global, keys: Keys, lines: &[Line]) -> Result<LabelPoints, NoMemory>
        ensures { IfOk result (ArePointsOf lines.now) }
    {
        let mut points = LabelPoints::empty(alloc, keys);
        let mut left = lines.len();
        while left > 0 {
            left -= 1;
            points.put(lines[left].label, left)?;
        }
        Ok(points)
    }

    /// The point of the first statement with a label among the statements of the table; the end,
    /// which is their number, where there is none.
    pub fn point(&self, lines: &[Line], label: u32) -> usize
        requires { ArePointsOf lines.now self.now }
        ensures point { result ≡ target lines.now label }
        ensures within { result ≤ length lines.now }
    {
        match self.map.get(&label) {
            Some(point) => *point,
            None => lines.len(),
        }
    }
}
