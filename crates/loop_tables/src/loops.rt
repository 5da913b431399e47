// The DOs of a unit by the points of their last statements.
ghost use Rattle.std.specs.Prelude.{◌≡◌, ◌<◌, ◌≤◌, suc, length, Some, slice_get, IfOk, IfSome, OnOk};
ghost use Rattle.fort_syntax.specs.declared.unit.Line.{Line};
ghost use Rattle.fort_model.specs.Flow.{around, loops_at};
ghost use Rattle.unit_tables.specs.Tables.{ArePointsOf};
ghost use Rattle.loop_tables.specs.Loops.{AreLoops, AreLoopsFrom, Lines, last_of, loops_told};

use crate::found::{places, put};
use edge_io::{List, NoMemory};
use fort_syntax::{Stmt, Unit};
use std::alloc::Global;
use unit_tables::LabelPoints;

/// The DOs of a unit by the points of their last statements, the innermost first. They are told by
/// their own points.
#[derive(Drop)]
pub struct Loops {
    table: Vec<List<usize>>,
}

/// The point of the last statement of a DO, where one stands at a point.
fn last_of(unit: &Unit, labels: &LabelPoints, at: usize) -> Option<usize>
    requires labels { ArePointsOf unit.now.lines labels.now }
    requires within { at < length unit.now.lines }
    ensures last { (line : Line) → slice_get unit.now.lines at ≡ Some line
        → result ≡ last_of unit.now.lines line.stmt }
    ensures inside { IfSome result (λ p. p ≤ length unit.now.lines) }
{
    let lines = unit.lines.as_slice();
    match &lines[at].stmt {
        Stmt::Do(label, ..) => Some(labels.point(lines, *label)),
        _ => None,
    }
}

impl Loops {
    /// Takes the statement at a point: if it is a DO, it stands behind those of its last statement
    /// that were taken before.
    fn take(
        &mut self,
        alloc: Global,
        unit: &Unit,
        labels: &LabelPoints,
        at: usize,
    ) -> Result<(), NoMemory>
        requires labels { ArePointsOf unit.now.lines labels.now }
        requires within { at < length unit.now.lines }
        requires before { AreLoopsFrom unit.now (suc at) self.old.table.items }
        ensures { OnOk result (AreLoopsFrom unit.now at self.new.table.items) }
    {
        let Some(point) = last_of(unit, labels, at) else {
            return Ok(());
        };
        let Ok(()) = put(alloc, &mut self.table, point, at) else {
            return Err(NoMemory);
        };
        Ok(())
    }

    /// The DOs of a unit, in time for its statements.
    pub fn new(alloc: Global, unit: &Unit, labels: &LabelPoints) -> Result<Loops, NoMemory>
        requires { ArePointsOf unit.now.lines labels.now }
        ensures { IfOk result (AreLoops unit.now) }
    {
        let count = unit.lines.as_slice().len();
        let Ok(table) = places(alloc, count + 1) else {
            return Err(NoMemory);
        };
        let mut loops = Loops { table };
        let mut left = count;
        while left > 0 {
            left -= 1;
            let Ok(()) = loops.take(alloc, unit, labels, left) else {
                return Err(NoMemory);
            };
        }
        Ok(loops)
    }

    /// The points of the DOs whose last statement stands at a point, the innermost first.
    pub fn at(&self, unit: &Unit, point: usize) -> &[usize]
        requires loops { AreLoops unit.now self.now }
        requires within { point ≤ length unit.now.lines }
        ensures { loops_told unit.now.lines result.now ≡ loops_at unit.now point }
    {
        self.table[point].as_slice()
    }
}

/// Those of some points that stand before another.
pub fn points_before(alloc: Global, points: &[usize], point: usize) -> Result<Vec<usize>, NoMemory>
    ensures { IfOk result (λ found. (lines : Lines) → loops_told lines found.items
        ≡ around point (loops_told lines points.now)) }
{
    let mut found = Vec::new(alloc);
    for at in points {
        if *at < point {
            let Ok(()) = found.push(*at) else {
                return Err(NoMemory);
            };
        }
    }
    Ok(found)
}
