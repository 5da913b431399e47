// The stage of ranges and clocks.
ghost use Rattle.std.specs.Prelude.{◌≡◌, IsTrue, IfOk, Some, None, Err};
ghost use Rattle.std.specs.List.{list_any};
ghost use Rattle.fort_syntax.specs.DeckOrder.{stand_between};
ghost use Rattle.fort_syntax.specs.declared.refusal.Fault.{Fault};
ghost use Rattle.fort_syntax.specs.declared.refusal.Refusal.TheVariants.{Broken};
ghost use Rattle.do_ranges.specs.Begun.{begins_range};
ghost use Rattle.do_ranges.specs.Stage.{TellsRanges};

use crate::clocks::bad_clock;
use crate::crossing::crossed;
use crate::jumps::bad_jump;
use crate::known::Known;
use crate::lasts::bad_last;
use edge_io::NoMemory;
use fort_notes::UnitSpec;
use fort_syntax::{Fault, Line, Refusal, Stmt, Unit};
use std::alloc::Global;
use unit_faults::sooner;

/// Whether a range may begin behind a statement: that of a DO, or a block.
fn begins_range(stmt: &Stmt) -> bool
    ensures { result ≡ begins_range stmt.now }
{
    matches!(
        stmt,
        Stmt::Do(..) | Stmt::BlockIf(_) | Stmt::ElseIf(_) | Stmt::Else
    )
}

/// Whether a range may begin behind one of some statements.
fn has_ranges(lines: &[Line]) -> bool
    ensures { result ≡ list_any (λ line. begins_range line.stmt) lines.now }
{
    for line in lines {
        if begins_range(&line.stmt) {
            return true;
        }
    }
    false
}

/// The first fault of a unit in this stage, if it has one. Without ranges it can only be one of a clock.
fn first_fault(alloc: Global, unit: &Unit, spec: &UnitSpec) -> Result<Option<Fault>, NoMemory>
    requires { IsTrue (stand_between unit.now.head unit.now.lines unit.now.«end») }
    ensures { IfOk result (TellsRanges unit.now spec.now) }
{
    let clock = bad_clock(spec.asserts.as_slice());
    if !has_ranges(unit.lines.as_slice()) {
        return Ok(clock);
    }
    let known = Known::new(alloc, unit)?;
    let last = bad_last(unit, &known.labels);
    let crossed = crossed(unit, &known);
    let jump = bad_jump(unit, &known);
    Ok(sooner(sooner(last, crossed), sooner(jump, clock)))
}

/// Judges the ranges of DOs and blocks of a unit and its clocks, rules 26, 27, 28 and 36. The cards of its statements ascend. Ok:
/// it breaks none of them. Broken: the first that it breaks, on the least card and there of the least number. Else memory was
/// wanted and not had.
pub fn check_ranges(alloc: Global, unit: &Unit, spec: &UnitSpec) -> Result<(), Refusal>
    requires { IsTrue (stand_between unit.now.head unit.now.lines unit.now.«end») }
    ensures kept { IfOk result (λ _. TellsRanges unit.now spec.now None) }
    ensures broken { (f : Fault) → result ≡ Err (Broken f) → TellsRanges unit.now spec.now (Some f) }
{
    match first_fault(alloc, unit, spec) {
        Ok(None) => Ok(()),
        Ok(Some(fault)) => Err(Refusal::Broken(fault)),
        Err(NoMemory) => Err(Refusal::NoMemory),
    }
}
