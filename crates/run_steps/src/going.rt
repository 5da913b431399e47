// The steps of a run.
ghost use Rattle.run_ranks.specs.Runnable.{IsRunnable};
ghost use Rattle.run_state.specs.Rests.{Tells};
ghost use Rattle.run_steps.specs.Going.{CanGoOn};
ghost use Rattle.run_work.specs.Ways.{WentOf};

use run_start::Runnable;
use run_state::{Setting, State};
use run_work::{Program, proceed};

/// Goes on for so many further steps, or until a run is over. It takes no memory.
pub fn go(state: &mut State, deck: &Runnable<'_>, setting: &Setting, steps: u64)
    requires runnable { IsRunnable deck.now.units.now deck.now.code.now deck.now.ranks.now }
    requires room { CanGoOn deck.now state.old }
    ensures kept { CanGoOn deck.now state.new }
    ensures went { WentOf deck.now.units.now deck.now.code.now setting.now steps state.old state.new }
    ensures tells { Tells deck.now.code.now setting.now state.new }
{
    let program = Program {
        units: deck.units,
        code: deck.code,
        ranks: deck.ranks,
        setting,
    };
    proceed(state, &program, steps);
}
