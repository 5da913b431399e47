// A scan of block IFs from behind.
ghost use Rattle.std.specs.Prelude.{◌≡◌, ◌+◌, ◌<◌, suc, length, get_or, replicate, IfOk};
ghost use Rattle.fort_model.specs.Flow.{is_branch, is_close};
ghost use Rattle.unit_points.specs.Turns.{first_from, HasScanned};

use crate::parts::Part;
use edge_io::NoMemory;
use fort_syntax::Line;
use std::alloc::Global;

/// For each point from which no block IF is open, and for the end, the first point from it on that has the next branch, and
/// the first that has the END IF; the number of statements where there is none.
#[derive(Drop)]
pub(crate) struct Scan {
    pub(crate) branches: Vec<usize>,
    pub(crate) ends: Vec<usize>,
}

fn filled(alloc: Global, count: usize, value: usize) -> Result<Vec<usize>, NoMemory>
    ensures { IfOk result (λ v. v.items ≡ replicate count value) }
{
    let mut all = Vec::with_capacity(alloc, count)?;
    for _ in 0..count {
        let Ok(()) = all.push(value) else {
            return Err(NoMemory);
        };
    }
    Ok(all)
}

/// What stands in a list behind a point; the last of them where nothing does.
fn behind(points: &[usize], at: usize) -> usize
    requires { 0 < length points.now }
    ensures at { at + 1 < length points.now → result ≡ get_or points.now (at + 1) 0 }
    ensures past { length points.now ≡ at + 1 → result ≡ get_or points.now at 0 }
{
    if at < points.len() - 1 {
        points[at + 1]
    } else {
        points[points.len() - 1]
    }
}

impl Scan {
    /// The first point from one on that has the next branch, where the scan has come to the point behind it.
    fn branch(&self, lines: &[Line], at: usize) -> usize
        requires at { at < length lines.now }
        requires scanned { HasScanned lines.now (suc at) self.now }
        ensures { result ≡ first_from is_branch lines.now at }
    {
        match Part::of(&lines[at].stmt) {
            Part::Opens => behind(self.branches.as_slice(), self.ends[at + 1]),
            Part::Branches => at,
            Part::Closes => at,
            Part::Plain => self.branches[at + 1],
        }
    }

    /// The same for the END IF.
    fn end(&self, lines: &[Line], at: usize) -> usize
        requires at { at < length lines.now }
        requires scanned { HasScanned lines.now (suc at) self.now }
        ensures { result ≡ first_from is_close lines.now at }
    {
        match Part::of(&lines[at].stmt) {
            Part::Opens => behind(self.ends.as_slice(), self.ends[at + 1]),
            Part::Closes => at,
            Part::Branches => self.ends[at + 1],
            Part::Plain => self.ends[at + 1],
        }
    }

    /// Passes the statement at a point.
    fn pass(&mut self, lines: &[Line], at: usize)
        requires at { at < length lines.now }
        requires scanned { HasScanned lines.now (suc at) self.old }
        ensures { HasScanned lines.now at self.new }
    {
        let branch = self.branch(lines, at);
        let end = self.end(lines, at);
        self.branches[at] = branch;
        self.ends[at] = end;
    }
}

/// A scan of all statements.
pub(crate) fn scan_all(alloc: Global, lines: &[Line]) -> Result<Scan, NoMemory>
    ensures { IfOk result (HasScanned lines.now 0) }
{
    let count = lines.len();
    let branches = filled(alloc, count + 1, count)?;
    let ends = filled(alloc, count + 1, count)?;
    let mut scan = Scan { branches, ends };
    for step in 0..count {
        scan.pass(lines, count - 1 - step);
    }
    Ok(scan)
}
