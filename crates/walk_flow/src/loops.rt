// The tests of DOs.
ghost use Rattle.std.specs.Prelude.{◌≡◌, ℕ, Some, List};
ghost use Rattle.fort_model.specs.Flow.{Loop};
ghost use Rattle.fort_model.specs.Graphs.{AreTests};
ghost use Rattle.walk_flow.specs.Loops.{AreLoopsOf, IsLoopOf, IsNextTest, test_of};

use crate::flow::{UnitFlow, fork_at, target_at};
use fort_model::Target;
use fort_syntax::{Name, Param, Stmt, Unit};

/// What a DO is tested by behind its last statement: its variable, its last value and its step.
#[derive(Clone, Copy, Debug)]
pub struct DoTest {
    pub variable: Name,
    pub last: Param,
    pub step: Option<Param>,
}

/// The test of a DO, and where the flow goes on when the DO is left.
#[derive(Clone, Copy, Debug)]
pub struct NextTest {
    pub test: DoTest,
    pub next: Target,
}

// The test of the DO at a point.
fn test_at(unit: &Unit, at: u32) -> Option<DoTest>
    ensures { (d : Loop) → IsLoopOf unit.now d → d.at ≡ at → result ≡ Some (test_of d) }
{
    let Some(line) = unit.lines.as_slice().get(at as usize) else {
        return None;
    };
    match &line.stmt {
        Stmt::Do(_, variable, _, last, step) => Some(DoTest {
            variable: *variable,
            last: *last,
            step: *step,
        }),
        _ => None,
    }
}

/// The test of the first of the DOs that a target stands for.
pub fn next_test(flow: &UnitFlow, target: Target) -> Option<NextTest>
    ensures { (q : ℕ) (ds : List Loop) → AreTests flow.now.graph.now.forks q ds target
        → AreLoopsOf flow.now.setting.now.book.now.unit.now ds
        → IsNextTest flow.now.setting.now.book.now.unit.now flow.now.graph.now.forks q ds result }
{
    let Target::Fork(number) = target else {
        return None;
    };
    let Some(fork) = fork_at(flow.graph, number) else {
        return None;
    };
    let Some(at) = fork.tested else {
        return None;
    };
    let Some(test) = test_at(flow.setting.book.unit, at) else {
        return None;
    };
    match target_at(fork.targets.as_slice(), 1) {
        Some(next) => Some(NextTest { test, next }),
        None => None,
    }
}
