// The tests behind statements.
ghost use Rattle.std.specs.Prelude.{ℕ, List, OnOk};
ghost use Rattle.fort_model.specs.Flow.{Loop};
ghost use Rattle.fort_model.specs.Graphs.{AreTests, IsBehind};
ghost use Rattle.fort_model.specs.WalkStmt as forms;
ghost use Rattle.walk_flow.specs.Loops.{AreLoopsOf};
ghost use Rattle.walk_setting.specs.Settings.{PerformsIn};
ghost use Rattle.walk_state.specs.Moments.{Follows, IsWalk, moment};

use crate::rounds::{go_round, leave};
use edge_io::NoMemory;
use walk_flow::{Standing, next_test};
use walk_state::Walk;

/// The tests of the DOs that a target stands for, in turn: by the choice 1 one goes round again, by
/// another one it is left.
pub fn tests_from(walk: &mut Walk, at: &Standing, choices: &[usize]) -> Result<(), NoMemory>
    requires { IsWalk walk.old }
    ensures on { Follows walk.old walk.new }
    ensures did { OnOk result ((q : ℕ) (ds : List Loop)
        → AreTests at.now.flow.now.graph.now.forks q ds at.now.target
        → AreLoopsOf at.now.flow.now.setting.now.book.now.unit.now ds
        → PerformsIn walk.old.pool at.now.flow.now.setting.now (moment walk.old)
        (λ w. forms.tests w at.now.card (moment walk.old).now ds choices.now) (moment walk.new)) }
{
    let mut target = at.target;
    for choice in choices {
        let Some(found) = next_test(at.flow, target) else {
            return Ok(());
        };
        if *choice == 1 {
            return go_round(walk, &at.at_card(), &found.test);
        }
        leave(walk, &at.at_card(), &found.test)?;
        target = found.next;
    }
    Ok(())
}

/// What comes behind a statement: the tests of the DOs whose last statement it is.
pub fn behind(walk: &mut Walk, at: &Standing, choices: &[usize]) -> Result<(), NoMemory>
    requires well { IsWalk walk.old }
    requires target { IsBehind at.now.flow.now.setting.now.book.now.unit.now
        at.now.flow.now.graph.now.forks at.now.point at.now.target }
    ensures on { Follows walk.old walk.new }
    ensures did { OnOk result (PerformsIn walk.old.pool at.now.flow.now.setting.now
        (moment walk.old) (λ w. forms.behind w at.now.card at.now.point (moment walk.old).now
        choices.now) (moment walk.new)) }
{
    tests_from(walk, at, choices)
}
