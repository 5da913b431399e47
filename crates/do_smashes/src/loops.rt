// DOs, and the names that they keep.
ghost use Rattle.std.specs.Prelude.{◌≡◌, ◌<◌, ℕ, List, ◌++◌, ◌∷◌, IfSome, OnOk};
ghost use Rattle.formula.specs.Atoms.{is_among};
ghost use Rattle.fort_model.specs.Ranges.{do_of, last_of_do, param_names, step_names};
ghost use Rattle.fort_model.specs.Rules.{uses_itself};
ghost use Rattle.unit_points.specs.Labels.{AreLabelsOf};
ghost use Rattle.do_smashes.specs.Guards.{kept_to, kept_by, Keeps};

use crate::guards::Guards;
use edge_io::NoMemory;
use fort_syntax::{Name, Param, Stmt, Unit};
use unit_points::Labels;

/// Whether a parameter is a name.
fn is_param(name: &Name, param: &Param) -> bool
    ensures { result ≡ is_among name.now (param_names param.now) }
{
    match param {
        Param::Named(other) => *name == *other,
        Param::Fixed(_) => false,
    }
}

fn is_step(name: &Name, step: &Option<Param>) -> bool
    ensures { result ≡ is_among name.now (step_names step.now) }
{
    match step {
        Some(param) => is_param(name, param),
        None => false,
    }
}

/// Whether a statement is a DO that has its own variable as a parameter.
pub(crate) fn uses_itself(stmt: &Stmt) -> bool
    ensures { result ≡ uses_itself stmt.now }
{
    match stmt {
        Stmt::Do(_, x, first, last, step) => {
            is_param(x, first) || is_param(x, last) || is_step(x, step)
        }
        _ => false,
    }
}

/// The point of the last statement of a DO at a point.
fn last_of_do(unit: &Unit, labels: &Labels, at: usize, label: u32) -> Option<usize>
    requires { AreLabelsOf unit.now.lines labels.now }
    ensures value { result ≡ last_of_do unit.now at label }
    ensures within { IfSome result (λ last. last < 18446744073709551615) }
{
    let last = labels.point(label);
    if at < last && last < unit.lines.as_slice().len() {
        Some(last)
    } else {
        None
    }
}

/// The names of a DO.
#[derive(Drop)]
struct Named<'a> {
    variable: &'a Name,
    first: &'a Param,
    last: &'a Param,
    step: &'a Option<Param>,
}

/// Keeps the parameters of a DO.
fn keep_params(guards: &mut Guards, named: &Named, end: usize) -> Result<(), NoMemory>
    ensures { OnOk result (Keeps guards.old guards.new (param_names named.now.first.now
        ++ param_names named.now.last.now ++ step_names named.now.step.now) end) }
{
    let Ok(()) = guards.keep_param(named.first, end) else {
        return Err(NoMemory);
    };
    let Ok(()) = guards.keep_param(named.last, end) else {
        return Err(NoMemory);
    };
    guards.keep_step(named.step, end)
}

/// Keeps the names of a DO.
fn keep_names(guards: &mut Guards, named: &Named, end: usize) -> Result<(), NoMemory>
    ensures { OnOk result (Keeps guards.old guards.new (named.now.variable.now ∷ param_names
        named.now.first.now ++ param_names named.now.last.now ++ step_names named.now.step.now)
        end) }
{
    let Ok(()) = guards.keep(*named.variable, end) else {
        return Err(NoMemory);
    };
    keep_params(guards, named, end)
}

/// Where a DO stands at a point, keeps its names up to the end of its range.
pub(crate) fn keep_do(
    guards: &mut Guards,
    unit: &Unit,
    labels: &Labels,
    at: usize,
    stmt: &Stmt,
) -> Result<(), NoMemory>
    requires { AreLabelsOf unit.now.lines labels.now }
    ensures { OnOk result ((x : List ℕ) → kept_to guards.new x ≡ kept_by
        (do_of unit.now at stmt.now) x (kept_to guards.old x)) }
{
    let Stmt::Do(label, variable, first, last, step) = stmt else {
        return Ok(());
    };
    let Some(end) = last_of_do(unit, labels, at, *label) else {
        return Ok(());
    };
    let named = Named {
        variable,
        first,
        last,
        step,
    };
    keep_names(guards, &named, end + 1)
}
