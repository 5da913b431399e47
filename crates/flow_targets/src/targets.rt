// The targets of statements.
ghost use Rattle.std.specs.Prelude.{◌≡◌, ◌<◌, ◌≤◌, ◌+◌, true, [], ◌∷◌, length, None, IfOk};
ghost use Rattle.fort_syntax.specs.Grammar.{is_carried};
ghost use Rattle.fort_model.specs.Flow.{target};
ghost use Rattle.fort_model.specs.Graphs.{IsForkTo, IsWithin, IsBehind, IsComputedTarget, IsTargetOf, points_of_labels};
ghost use Rattle.fort_model.specs.declared.graph.Target.TheVariants.{Point};
ghost use Rattle.flow_tests.specs.Growing.{AreWithin, Grown};
ghost use Rattle.flow_targets.specs.Leading.{IsKnown, LabelsAreKnown, IsForkOn, IsLogicalTarget};

use crate::known::Known;
use edge_io::{List, NoMemory};
use flow_tests::{put_fork, target_at, two};
use fort_model::{Fork, Target};
use fort_syntax::{Dialect, Stmt};
use std::alloc::Global;

/// Leads to a point.
pub(crate) fn to_point(known: &Known, forks: &Vec<Fork>, point: usize) -> Target
    requires known { IsKnown known.now forks.now.items }
    requires point { point ≤ length known.now.unit.now.lines }
    ensures value { result ≡ Point point }
    ensures one { Grown (length known.now.unit.now.lines) 1 forks.now.items forks.now.items result }
    ensures both { Grown (length known.now.unit.now.lines) 2 forks.now.items forks.now.items result }
{
    Target::Point(point as u32)
}

/// Leads on behind the statement at a point.
pub(crate) fn on_behind(known: &Known, forks: &Vec<Fork>, at: usize) -> Target
    requires known { IsKnown known.now forks.now.items }
    requires at { at < length known.now.unit.now.lines }
    ensures behind { IsBehind known.now.unit.now forks.now.items at result }
    ensures one { Grown (length known.now.unit.now.lines) 1 forks.now.items forks.now.items result }
    ensures both { Grown (length known.now.unit.now.lines) 2 forks.now.items forks.now.items result }
{
    target_at(known.behind.as_slice(), at)
}

/// Leads to one of some targets.
pub(crate) fn to_any(
    known: &Known,
    forks: &mut Vec<Fork>,
    targets: List<Target>,
) -> Result<Target, NoMemory>
    requires known { IsKnown known.now forks.old.items }
    requires room { length forks.old.items < 4294967296 }
    requires within { AreWithin (length known.now.unit.now.lines) (length forks.old.items) targets }
    ensures fork { IfOk result (λ t. IsForkTo forks.new.items t None targets) }
    ensures grown { IfOk result (λ t. Grown (length known.now.unit.now.lines) 1 forks.old.items
        forks.new.items t) }
{
    let Ok(target) = put_fork(forks, None, targets) else {
        return Err(NoMemory);
    };
    Ok(target)
}

/// Leads to one of two targets.
pub(crate) fn to_either(
    alloc: Global,
    known: &Known,
    forks: &mut Vec<Fork>,
    first: Target,
    second: Target,
) -> Result<Target, NoMemory>
    requires known { IsKnown known.now forks.old.items }
    requires room { length forks.old.items < 4294967296 }
    requires first { IsWithin (length known.now.unit.now.lines) (length forks.old.items) first }
    requires second { IsWithin (length known.now.unit.now.lines) (length forks.old.items) second }
    ensures fork { IfOk result (λ t. IsForkTo forks.new.items t None (first ∷ second ∷ [])) }
    ensures grown { IfOk result (λ t. Grown (length known.now.unit.now.lines) 1 forks.old.items
        forks.new.items t) }
{
    let targets = two(alloc, first, second)?;
    let Ok(target) = to_any(known, forks, targets) else {
        return Err(NoMemory);
    };
    Ok(target)
}

/// The point of a label.
fn point_of_label(known: &Known, label: u32) -> Target
    requires { LabelsAreKnown known.now }
    ensures { result ≡ Point (target known.now.unit.now.lines label) }
{
    Target::Point(known.labels.point(label) as u32)
}

/// The points of labels.
fn points(alloc: Global, known: &Known, labels: &[u32]) -> Result<Vec<Target>, NoMemory>
    requires { LabelsAreKnown known.now }
    ensures { IfOk result (λ v. v.items ≡ points_of_labels known.now.unit.now labels.now) }
{
    let mut all = Vec::with_capacity(alloc, labels.len())?;
    for label in labels {
        let Ok(()) = all.push(point_of_label(known, *label)) else {
            return Err(NoMemory);
        };
    }
    Ok(all)
}

/// Leads to one of some labels.
fn to_labels(
    alloc: Global,
    known: &Known,
    forks: &mut Vec<Fork>,
    labels: &[u32],
) -> Result<Target, NoMemory>
    requires known { IsKnown known.now forks.old.items }
    requires room { length forks.old.items < 4294967296 }
    ensures fork { IfOk result (λ t. IsForkTo forks.new.items t None
        (points_of_labels known.now.unit.now labels.now)) }
    ensures grown { IfOk result (λ t. Grown (length known.now.unit.now.lines) 1 forks.old.items
        forks.new.items t) }
{
    let targets = points(alloc, known, labels)?;
    let Ok(target) = to_any(known, forks, List::from_vec(targets)) else {
        return Err(NoMemory);
    };
    Ok(target)
}

/// Leads to one of some labels, or on behind the statement at a point.
fn to_labels_or_on(
    alloc: Global,
    known: &Known,
    forks: &mut Vec<Fork>,
    at: usize,
    labels: &[u32],
) -> Result<Target, NoMemory>
    requires known { IsKnown known.now forks.old.items }
    requires room { length forks.old.items < 4294967296 }
    requires at { at < length known.now.unit.now.lines }
    ensures fork { IfOk result (λ t. IsForkOn known.now.unit.now forks.new.items at
        (points_of_labels known.now.unit.now labels.now) t) }
    ensures grown { IfOk result (λ t. Grown (length known.now.unit.now.lines) 1 forks.old.items
        forks.new.items t) }
{
    let mut targets = points(alloc, known, labels)?;
    let on = on_behind(known, forks, at);
    let Ok(()) = targets.push(on) else {
        return Err(NoMemory);
    };
    let Ok(target) = to_any(known, forks, List::from_vec(targets)) else {
        return Err(NoMemory);
    };
    Ok(target)
}

/// The target of a computed GO TO.
fn computed(
    alloc: Global,
    known: &Known,
    forks: &mut Vec<Fork>,
    at: usize,
    labels: &[u32],
) -> Result<Target, NoMemory>
    requires known { IsKnown known.now forks.old.items }
    requires room { length forks.old.items < 4294967296 }
    requires at { at < length known.now.unit.now.lines }
    ensures target { IfOk result (λ t. IsComputedTarget known.now.dialect known.now.unit.now
        forks.new.items at labels.now t) }
    ensures grown { IfOk result (λ t. Grown (length known.now.unit.now.lines) 1 forks.old.items
        forks.new.items t) }
{
    match known.dialect {
        Dialect::Common => to_labels(alloc, known, forks, labels),
        Dialect::SeventySeven => to_labels_or_on(alloc, known, forks, at, labels),
    }
}

/// The target of a statement that a logical IF may carry.
pub(crate) fn plain(
    alloc: Global,
    known: &Known,
    forks: &mut Vec<Fork>,
    at: usize,
    stmt: &Stmt,
) -> Result<Target, NoMemory>
    requires known { IsKnown known.now forks.old.items }
    requires room { length forks.old.items < 4294967296 }
    requires at { at < length known.now.unit.now.lines }
    requires carried { is_carried stmt.now ≡ true }
    ensures target { IfOk result (λ t. IsTargetOf known.now.dialect known.now.unit.now
        forks.new.items at stmt.now t) }
    ensures grown { IfOk result (λ t. Grown (length known.now.unit.now.lines) 1 forks.old.items
        forks.new.items t) }
{
    match stmt {
        Stmt::Computed(labels, _) => computed(alloc, known, forks, at, labels.as_slice()),
        Stmt::ArithIf(_, l, m, n) => to_labels(alloc, known, forks, &[*l, *m, *n]),
        Stmt::GoTo(label) => Ok(to_point(known, forks, known.labels.point(*label))),
        Stmt::Return => Ok(to_point(known, forks, known.unit.lines.as_slice().len())),
        Stmt::Assign(..) => Ok(on_behind(known, forks, at)),
        Stmt::Call(..) => Ok(on_behind(known, forks, at)),
        Stmt::Continue => Ok(on_behind(known, forks, at)),
        _ => Ok(on_behind(known, forks, at)),
    }
}

/// The target of a logical IF that carries a statement.
pub(crate) fn logical(
    alloc: Global,
    known: &Known,
    forks: &mut Vec<Fork>,
    at: usize,
    stmt: &Stmt,
) -> Result<Target, NoMemory>
    requires known { IsKnown known.now forks.old.items }
    requires room { length forks.old.items + 1 < 4294967296 }
    requires at { at < length known.now.unit.now.lines }
    requires carried { is_carried stmt.now ≡ true }
    ensures target { IfOk result (λ t. IsLogicalTarget known.now.dialect known.now.unit.now
        forks.new.items at stmt.now t) }
    ensures grown { IfOk result (λ t. Grown (length known.now.unit.now.lines) 2 forks.old.items
        forks.new.items t) }
{
    let then = plain(alloc, known, forks, at, stmt)?;
    let on = on_behind(known, forks, at);
    let Ok(target) = to_either(alloc, known, forks, then, on) else {
        return Err(NoMemory);
    };
    Ok(target)
}
