// What the runs of all units need.
ghost use Rattle.std.specs.Prelude.{◌≡◌, IfOk, OnOk};
ghost use Rattle.run_shapes.specs.Coded.{IsCodeOf};
ghost use Rattle.run_ranks.specs.Raised.{raised, all_raised, ranks_of};
ghost use Rattle.run_ranks.specs.Runnable.{CanRun, IsRunnable};

use crate::owns::own_ranks;
use crate::ranks::{Ranks, UnitRank};
use crate::wants::{settle, with_calls};
use edge_io::{List, NoMemory};
use fort_syntax::Unit;
use run_shapes::{Code, UnitCode};
use std::alloc::Global;

/// Raises the needs of the unit of a number by those of the units that it calls.
fn raise(codes: &[UnitCode], ranks: &mut Vec<UnitRank>, i: usize) -> Result<(), NoMemory>
    ensures { OnOk result (ranks.new.items ≡ raised codes.now ranks.old.items i) }
{
    if i >= codes.len() || i >= ranks.len() {
        return Ok(());
    }
    let all = ranks.as_slice();
    let Some(wants) = with_calls(codes, all, &all[i], codes[i].calls.as_slice()) else {
        return Err(NoMemory);
    };
    settle(&mut ranks[i], wants);
    Ok(())
}

/// Raises the needs of the units of an order.
fn raise_all(codes: &[UnitCode], ranks: &mut Vec<UnitRank>, order: &[u32]) -> Result<(), NoMemory>
    ensures { OnOk result (ranks.new.items ≡ all_raised codes.now ranks.old.items order.now) }
{
    for i in order {
        raise(codes, ranks, *i as usize)?;
    }
    Ok(())
}

/// What units need with all that they call, in an order in which each stands behind those.
fn ranked(alloc: Global, code: &Code, units: &[Unit], order: &[u32]) -> Result<Ranks, NoMemory>
    ensures { IfOk result (λ r. r.units ≡ ranks_of units.now code.now order.now) }
{
    let mut ranks = own_ranks(alloc, units, code.units.as_slice())?;
    raise_all(code.units.as_slice(), &mut ranks, order)?;
    Ok(Ranks {
        units: List::from_vec(ranks),
    })
}

impl Ranks {
    /// What the runs of units need, in time for their code, where each unit stands behind those that
    /// it calls. A need beyond all numbers is want of memory, as no memory has so much.
    pub fn new(alloc: Global, code: &Code, units: &[Unit], order: &[u32]) -> Result<Ranks, NoMemory>
        requires coded { IsCodeOf code.now.dialect units.now code.now }
        requires runs { CanRun code.now.dialect units.now order.now }
        ensures { IfOk result (IsRunnable units.now code.now) }
    {
        ranked(alloc, code, units, order)
    }
}
