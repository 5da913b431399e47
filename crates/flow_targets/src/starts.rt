// The target of each statement.
ghost use Rattle.std.specs.Prelude.{◌≡◌, ◌<◌, ◌+◌, [], ◌∷◌, length, Some, None, slice_get, IfOk};
ghost use Rattle.fort_model.specs.Flow.{next_point, next_branch};
ghost use Rattle.fort_model.specs.Graphs.{IsForkTo, IsTargetOf};
ghost use Rattle.fort_model.specs.declared.graph.Target.TheVariants.{Point};
ghost use Rattle.unit_points.specs.Turns.{AreTurnsOf};
ghost use Rattle.flow_tests.specs.Growing.{Grown};
ghost use Rattle.flow_tests.specs.Tests.{do_label};
ghost use Rattle.flow_targets.specs.Leading.{IsKnown, IsEntered};

use crate::known::Known;
use crate::targets::{logical, on_behind, plain, to_any, to_either, to_point};
use edge_io::{List, NoMemory};
use flow_tests::target_at;
use fort_model::{Fork, Target};
use fort_syntax::{Dialect, Line, Stmt};
use std::alloc::Global;

/// The target of the DO at a point.
fn do_target(
    alloc: Global,
    known: &Known,
    forks: &mut Vec<Fork>,
    at: usize,
    line: &Line,
) -> Result<Target, NoMemory>
    requires known { IsKnown known.now forks.old.items }
    requires room { length forks.old.items + 1 < 4294967296 }
    requires at { at < length known.now.unit.now.lines }
    requires line { slice_get known.now.unit.now.lines at ≡ Some line.now }
    ensures target { IfOk result (λ t. IsEntered known.now.dialect known.now.unit.now
        forks.new.items at (do_label line.now.stmt) t) }
    ensures grown { IfOk result (λ t. Grown (length known.now.unit.now.lines) 2 forks.old.items
        forks.new.items t) }
{
    let inside = to_point(known, forks, at + 1);
    match known.dialect {
        Dialect::Common => Ok(inside),
        Dialect::SeventySeven => {
            let over = target_at(known.over.as_slice(), at);
            let Ok(target) = to_either(alloc, known, forks, inside, over) else {
                return Err(NoMemory);
            };
            Ok(target)
        }
    }
}

/// The target of a branch of a block IF at a point.
fn branch(
    alloc: Global,
    known: &Known,
    forks: &mut Vec<Fork>,
    at: usize,
) -> Result<Target, NoMemory>
    requires known { IsKnown known.now forks.old.items }
    requires room { length forks.old.items + 1 < 4294967296 }
    requires at { at < length known.now.unit.now.lines }
    ensures target { IfOk result (λ t. IsForkTo forks.new.items t None
        (Point (next_point known.now.unit.now at) ∷ Point (next_branch known.now.unit.now at)
        ∷ [])) }
    ensures grown { IfOk result (λ t. Grown (length known.now.unit.now.lines) 2 forks.old.items
        forks.new.items t) }
{
    let inside = to_point(known, forks, next_at(known, at));
    let past = to_point(known, forks, branch_at(known, at));
    let Ok(target) = to_either(alloc, known, forks, inside, past) else {
        return Err(NoMemory);
    };
    Ok(target)
}

fn next_at(known: &Known, at: usize) -> usize
    requires turns { AreTurnsOf known.now.unit.now known.now.turns }
    requires at { at < length known.now.unit.now.lines }
    ensures { result ≡ next_point known.now.unit.now at }
{
    known.turns.points[at]
}

fn branch_at(known: &Known, at: usize) -> usize
    requires turns { AreTurnsOf known.now.unit.now known.now.turns }
    requires at { at < length known.now.unit.now.lines }
    ensures { result ≡ next_branch known.now.unit.now at }
{
    known.turns.branches[at]
}

/// The target of a statement of a unit, which is not performed: it leads nowhere.
fn nowhere(alloc: Global, known: &Known, forks: &mut Vec<Fork>) -> Result<Target, NoMemory>
    requires known { IsKnown known.now forks.old.items }
    requires room { length forks.old.items + 1 < 4294967296 }
    ensures target { IfOk result (λ t. IsForkTo forks.new.items t None []) }
    ensures grown { IfOk result (λ t. Grown (length known.now.unit.now.lines) 2 forks.old.items
        forks.new.items t) }
{
    let Ok(target) = to_any(known, forks, List::from_vec(Vec::new(alloc))) else {
        return Err(NoMemory);
    };
    Ok(target)
}

/// The target of the statement at a point. The forks grow by two at most.
pub fn target_of(
    alloc: Global,
    known: &Known,
    forks: &mut Vec<Fork>,
    at: usize,
    line: &Line,
) -> Result<Target, NoMemory>
    requires known { IsKnown known.now forks.old.items }
    requires room { length forks.old.items + 1 < 4294967296 }
    requires at { at < length known.now.unit.now.lines }
    requires line { slice_get known.now.unit.now.lines at ≡ Some line.now }
    ensures target { IfOk result (λ t. IsTargetOf known.now.dialect known.now.unit.now
        forks.new.items at line.now.stmt t) }
    ensures grown { IfOk result (λ t. Grown (length known.now.unit.now.lines) 2 forks.old.items
        forks.new.items t) }
{
    match &line.stmt {
        Stmt::LogicalIf(_, carried) => {
            let Ok(target) = logical(alloc, known, forks, at, carried.get()) else {
                return Err(NoMemory);
            };
            Ok(target)
        }
        Stmt::Do(..) => do_target(alloc, known, forks, at, line),
        Stmt::BlockIf(_) => branch(alloc, known, forks, at),
        Stmt::ElseIf(_) => branch(alloc, known, forks, at),
        Stmt::Else => Ok(on_behind(known, forks, at)),
        Stmt::EndIf => Ok(on_behind(known, forks, at)),
        Stmt::Assign(..)
        | Stmt::GoTo(_)
        | Stmt::Computed(..)
        | Stmt::ArithIf(..)
        | Stmt::Call(..)
        | Stmt::Continue
        | Stmt::Return => plain(alloc, known, forks, at, &line.stmt),
        _ => nowhere(alloc, known, forks),
    }
}
