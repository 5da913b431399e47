// The tests of DOs behind their last statements.
ghost use Rattle.std.specs.Prelude.{◌≡◌, ◌<◌, suc, length, Some, None, slice_get, IfOk, OnOk};
ghost use Rattle.fort_syntax.specs.declared.unit.Line.{Line};
ghost use Rattle.fort_model.specs.Flow.{next_point};
ghost use Rattle.fort_model.specs.declared.graph.Target.TheVariants.{Point};
ghost use Rattle.unit_points.specs.Labels.{AreLabelsOf};
ghost use Rattle.unit_points.specs.Turns.{AreTurnsOf};
ghost use Rattle.flow_tests.specs.Tests.{IsFlowing, LeadsTo, AreChains, do_label};

use crate::forking::{put_fork, target_at, two};
use edge_io::NoMemory;
use fort_model::{Fork, Target};
use fort_syntax::{Stmt, Unit};
use std::alloc::Global;
use unit_points::{Labels, Turns};

/// The forks of the tests; for each point what stands behind its statement; and for each DO what it leads to if it is not
/// entered.
#[derive(Drop)]
pub struct Chains {
    pub forks: Vec<Fork>,
    pub behind: Vec<Target>,
    pub over: Vec<Target>,
}

/// The point that the flow goes on to behind a point.
fn point_behind(unit: &Unit, turns: &Turns, at: usize) -> usize
    requires turns { AreTurnsOf unit.now turns.now }
    requires at { at < length unit.now.lines }
    ensures { result ≡ next_point unit.now at }
{
    turns.points[at]
}

/// The same as a target.
fn behind_point(unit: &Unit, turns: &Turns, at: usize) -> Target
    requires turns { AreTurnsOf unit.now turns.now }
    requires flowing { IsFlowing unit.now }
    requires at { at < length unit.now.lines }
    ensures { result ≡ Point (next_point unit.now at) }
{
    Target::Point(point_behind(unit, turns, at) as u32)
}

impl Chains {
    /// No DO is tested, and the flow goes on.
    fn new(alloc: Global, unit: &Unit, turns: &Turns) -> Result<Chains, NoMemory>
        requires turns { AreTurnsOf unit.now turns.now }
        requires flowing { IsFlowing unit.now }
        ensures { IfOk result (λ c. AreChains unit.now 0 c.forks.items c.behind.items c.over.items) }
    {
        let count = unit.lines.as_slice().len();
        let mut behind = Vec::with_capacity(alloc, count)?;
        for at in 0..count {
            let Ok(()) = behind.push(behind_point(unit, turns, at)) else {
                return Err(NoMemory);
            };
        }
        Ok(Chains {
            forks: Vec::new(alloc),
            behind,
            over: Vec::new(alloc),
        })
    }

    /// Puts the test of a DO at a point before those behind its last statement.
    fn put(&mut self, alloc: Global, unit: &Unit, at: usize, last: usize) -> Result<(), NoMemory>
        requires flowing { IsFlowing unit.now }
        requires at { at < length unit.now.lines }
        requires last { last < length unit.now.lines }
        requires label { (line : Line) → slice_get unit.now.lines at ≡ Some line
            → LeadsTo unit.now (do_label line.stmt) last }
        requires chains { AreChains unit.now at self.old.forks.items self.old.behind.items
            self.old.over.items }
        ensures { OnOk result (AreChains unit.now (suc at) self.new.forks.items
            self.new.behind.items self.new.over.items) }
    {
        let over = target_at(self.behind.as_slice(), last);
        let targets = two(alloc, Target::Point((at + 1) as u32), over)?;
        let test = put_fork(&mut self.forks, Some(at as u32), targets)?;
        self.behind[last] = test;
        let Ok(()) = self.over.push(over) else {
            return Err(NoMemory);
        };
        Ok(())
    }

    /// Passes a statement that is no DO.
    fn skip(&mut self, unit: &Unit, at: usize) -> Result<(), NoMemory>
        requires at { at < length unit.now.lines }
        requires label { (line : Line) → slice_get unit.now.lines at ≡ Some line → do_label line.stmt ≡ None }
        requires chains { AreChains unit.now at self.old.forks.items self.old.behind.items
            self.old.over.items }
        ensures { OnOk result (AreChains unit.now (suc at) self.new.forks.items
            self.new.behind.items self.new.over.items) }
    {
        let Ok(()) = self.over.push(Target::Point(0)) else {
            return Err(NoMemory);
        };
        Ok(())
    }

    /// Passes the statement at a point.
    fn pass(
        &mut self,
        alloc: Global,
        unit: &Unit,
        labels: &Labels,
        at: usize,
    ) -> Result<(), NoMemory>
        requires flowing { IsFlowing unit.now }
        requires labels { AreLabelsOf unit.now.lines labels.now }
        requires at { at < length unit.now.lines }
        requires chains { AreChains unit.now at self.old.forks.items self.old.behind.items
            self.old.over.items }
        ensures { OnOk result (AreChains unit.now (suc at) self.new.forks.items
            self.new.behind.items self.new.over.items) }
    {
        match do_label(unit, at) {
            Some(label) => self.put(alloc, unit, at, labels.point(label)),
            None => self.skip(unit, at),
        }
    }
}

/// The label of the DO at a point, if one stands there.
fn do_label(unit: &Unit, at: usize) -> Option<u32>
    requires { at < length unit.now.lines }
    ensures { (line : Line) → slice_get unit.now.lines at ≡ Some line → do_label line.stmt ≡ result }
{
    match &unit.lines.as_slice()[at].stmt {
        Stmt::Do(label, ..) => Some(*label),
        _ => None,
    }
}

/// The tests of all DOs of a unit.
pub fn chains_of(
    alloc: Global,
    unit: &Unit,
    labels: &Labels,
    turns: &Turns,
) -> Result<Chains, NoMemory>
    requires flowing { IsFlowing unit.now }
    requires labels { AreLabelsOf unit.now.lines labels.now }
    requires turns { AreTurnsOf unit.now turns.now }
    ensures { IfOk result (λ c. AreChains unit.now (length unit.now.lines) c.forks.items
        c.behind.items c.over.items) }
{
    let mut chains = Chains::new(alloc, unit, turns)?;
    for at in 0..unit.lines.as_slice().len() {
        chains.pass(alloc, unit, labels, at)?;
    }
    Ok(chains)
}
