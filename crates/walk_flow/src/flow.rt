// The flow of a unit.
ghost use Rattle.std.specs.Prelude.{◌≡◌, ◌<◌, Some, length, option_copied, slice_get, IfOk};
ghost use Rattle.fort_notes.specs.Assertions.{Notes};
ghost use Rattle.fort_syntax.specs.declared.unit.Line.{Line};
ghost use Rattle.fort_model.specs.Flow as flow;
ghost use Rattle.fort_model.specs.Graphs.{IsGraphOf, IsTargetOf};
ghost use Rattle.fort_model.specs.Perform.{card_in};
ghost use Rattle.unit_tables.specs.Tables.{ArePointsOf};

use edge_io::{Keys, NoMemory};
use fort_model::{Fork, Graph, Target};
use fort_syntax::Line;
use std::alloc::Global;
use unit_tables::LabelPoints;
use walk_setting::Setting;

/// A unit of a program, with the graph of its flow and a table of its labels.
#[derive(Drop)]
pub struct UnitFlow<'a> {
    pub setting: &'a Setting<'a>,
    pub graph: &'a Graph,
    labels: LabelPoints,
    ghost labels_are: { ArePointsOf setting.now.book.now.unit.now.lines labels },
}

/// The target of a number among some, from 0.
pub(crate) fn target_at(targets: &[Target], number: usize) -> Option<Target>
    ensures { result ≡ slice_get targets.now number }
{
    match targets.get(number) {
        Some(target) => Some(*target),
        None => None,
    }
}

/// The fork of a number in a graph.
pub(crate) fn fork_at<'g>(graph: &'g Graph, number: u32) -> Option<&'g Fork>
    ensures { option_copied result ≡ slice_get graph.now.forks number }
{
    graph.forks.as_slice().get(number as usize)
}

impl<'a> UnitFlow<'a> {
    /// The unit of a setting, with its graph, in time for its statements. No answer depends on the
    /// keys.
    pub fn new(
        alloc: Global,
        keys: Keys,
        setting: &'a Setting<'a>,
        graph: &'a Graph,
    ) -> Result<UnitFlow<'a>, NoMemory>
        ensures setting { IfOk result (λ f. f.setting.now ≡ setting.now) }
        ensures graph { IfOk result (λ f. f.graph.now ≡ graph.now) }
    {
        let Ok(labels) = LabelPoints::new(alloc, keys, setting.book.unit.lines.as_slice()) else {
            return Err(NoMemory);
        };
        Ok(UnitFlow {
            setting,
            graph,
            labels,
        })
    }

    /// The statement at a point.
    pub fn line(&self, point: usize) -> &'a Line
        requires { point < length self.now.setting.now.book.now.unit.now.lines }
        ensures { slice_get self.now.setting.now.book.now.unit.now.lines point ≡ Some result.now }
    {
        &self.setting.book.unit.lines.as_slice()[point]
    }

    /// Where the statement at a point leads.
    pub fn start(&self, point: usize) -> Target
        requires within { point < length self.now.setting.now.book.now.unit.now.lines }
        requires graph { (notes : Notes) × IsGraphOf self.now.setting.now.scene.now.dialect
            self.now.setting.now.book.now.unit.now notes self.now.graph.now }
        ensures { (line : Line) → slice_get self.now.setting.now.book.now.unit.now.lines point
            ≡ Some line → IsTargetOf self.now.setting.now.scene.now.dialect
            self.now.setting.now.book.now.unit.now self.now.graph.now.forks point line.stmt result }
    {
        match target_at(self.graph.starts.as_slice(), point) {
            Some(target) => target,
            None => Target::Point(0),
        }
    }

    /// The card of the first statement with a label; 0 where there is none.
    pub fn card_of_label(&self, label: u32) -> u32
        ensures { result ≡ card_in (slice_get self.now.setting.now.book.now.unit.now.lines
            (flow.target self.now.setting.now.book.now.unit.now.lines label)) }
    {
        let lines = self.setting.book.unit.lines.as_slice();
        match lines.get(self.labels.point(lines, label)) {
            Some(line) => line.card,
            None => 0,
        }
    }
}
