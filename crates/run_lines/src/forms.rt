// The code of the forms of statements.
ghost use Rattle.std.specs.Prelude.{◌≡◌, ◌∷◌, [], ◌+◌, ◌++◌, suc, true, false, length, map, flat_map, IfOk, OnOk};
ghost use Rattle.fort_model.specs.Calls.{sites_in};
ghost use Rattle.run_coding.specs.Pushed.{actuals_listed, pushed, slot_in};
ghost use Rattle.run_coding.specs.Scopes.{next_call, unit_of, with_calls};
ghost use Rattle.run_lines.specs.Stated.{param_pushed, step_pushed};
ghost use Rattle.run_shapes.specs.declared.instr.Instr.TheVariants as instr;

use crate::draft::{Draft, push, push_all};
use edge_io::NoMemory;
use fort_syntax::{Expr, Name, Param};
use run_coding::{Scope, code_actuals, code_of, push_call};
use run_shapes::Instr;
use std::alloc::Global;

fn param(scope: &Scope, p: Param) -> Instr
    ensures { result ≡ param_pushed scope.now.names.now p }
{
    match p {
        Param::Fixed(c) => Instr::Number(c),
        Param::Named(x) => Instr::Load(scope.slot(&x)),
    }
}

fn step(scope: &Scope, p: Option<Param>) -> Instr
    ensures { result ≡ step_pushed scope.now.names.now p }
{
    match p {
        Some(m) => param(scope, m),
        None => Instr::One,
    }
}

/// The code of an assignment but for what is behind it. The calls of the left side are numbered
/// first, and its code stands behind that of the right side.
pub(crate) fn code_sides(
    alloc: Global,
    scope: &Scope,
    draft: &mut Draft,
    left: &Expr,
    right: &Expr,
) -> Result<(), NoMemory>
    ensures targets { OnOk result (draft.new.targets.items ≡ draft.old.targets.items) }
    ensures calls { OnOk result (draft.new.calls.items ≡ with_calls scope.now
        (sites_in (unit_of scope.now) left.now ++ sites_in (unit_of scope.now) right.now)
        draft.old.calls.items) }
    ensures code { let k = length draft.old.calls.items in OnOk result (draft.new.instrs.items
        ≡ draft.old.instrs.items ++ (pushed (unit_of scope.now) scope.now.names.now true
        (k + length (sites_in (unit_of scope.now) left.now)) right.now ++ pushed
        (unit_of scope.now) scope.now.names.now false k left.now)) }
{
    let mut side = Vec::new(alloc);
    code_of(scope, &mut draft.calls, &mut side, false, left)?;
    code_of(scope, &mut draft.calls, &mut draft.instrs, true, right)?;
    push_all(&mut draft.instrs, side.as_slice())
}

/// The code of the beginning of a DO: its values, and behind them how it goes on.
pub(crate) fn code_values(
    scope: &Scope,
    out: &mut Vec<Instr>,
    first: Param,
    last: Param,
    by: Option<Param>,
) -> Result<(), NoMemory>
    ensures { OnOk result (out.new.items ≡ out.old.items ++ param_pushed scope.now.names.now
        first ∷ param_pushed scope.now.names.now last ∷ step_pushed scope.now.names.now by ∷ []) }
{
    push(out, param(scope, first))?;
    push(out, param(scope, last))?;
    push(out, step(scope, by))
}

/// The code of a CALL but for what is behind it.
pub(crate) fn code_call(
    scope: &Scope,
    draft: &mut Draft,
    callee: &Name,
    actuals: &[Expr],
) -> Result<(), NoMemory>
    ensures targets { OnOk result (draft.new.targets.items ≡ draft.old.targets.items) }
    ensures calls { OnOk result (draft.new.calls.items ≡ with_calls scope.now
        (record { reference = false; callee = callee.now; actuals = actuals.now } ∷ flat_map
        (sites_in (unit_of scope.now)) actuals.now) draft.old.calls.items) }
    ensures code { OnOk result (draft.new.instrs.items ≡ draft.old.instrs.items ++
        (actuals_listed (unit_of scope.now) scope.now.names.now (suc (length draft.old.calls.items))
        actuals.now ++ (instr.Refer (length draft.old.calls.items) ∷ instr.Forget ∷ []))) }
{
    let place = push_call(&mut draft.calls, scope.subroutine(callee), actuals.len())?;
    code_actuals(scope, &mut draft.calls, &mut draft.instrs, actuals)?;
    push(&mut draft.instrs, Instr::Refer(place))?;
    push(&mut draft.instrs, Instr::Forget)
}
