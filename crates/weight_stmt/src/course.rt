// The unit whose statements are weighed.
ghost use Rattle.unit_tables.specs.Tables.{ArePointsOf};
ghost use Rattle.loop_tables.specs.Loops.{AreLoops};

use loop_tables::Loops;
use unit_tables::LabelPoints;
use weight_calls::Subject;

/// A unit whose paths are weighed, with tables of its DOs and its labels.
pub struct Course<'a> {
    pub subject: &'a Subject<'a>,
    pub loops: &'a Loops,
    pub labels: &'a LabelPoints,
    ghost loops_are: { AreLoops subject.now.book.now.unit.now loops.now },
    ghost labels_are: { ArePointsOf subject.now.book.now.unit.now.lines labels.now },
}
