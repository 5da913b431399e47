// The code of expressions.
ghost use Rattle.std.specs.Prelude.{◌≡◌, ◌<◌, true, suc, [], ◌∷◌, ◌++◌, length, set, flat_map, IfOk, OnOk};
ghost use Rattle.fort_model.specs.Calls.{sites_in};
ghost use Rattle.fort_syntax.specs.Names.{applied};
ghost use Rattle.run_coding.specs.Pushed.{actuals_listed, closing, function_of, name_pushed, pushed, values_listed};
ghost use Rattle.run_coding.specs.Scopes.{next_call, unit_of, with_calls};

use crate::scope::Scope;
use edge_io::NoMemory;
use fort_syntax::{Expr, Name};
use run_shapes::{CallCode, Function, Instr};

fn push(out: &mut Vec<Instr>, instr: Instr) -> Result<(), NoMemory>
    ensures { OnOk result (out.new.items ≡ out.old.items ++ instr ∷ []) }
{
    match out.push(instr) {
        Ok(()) => Ok(()),
        Err(_) => Err(NoMemory),
    }
}

/// Lists a call: its number is one more than that of the call before it. It answers its place.
pub fn push_call(
    calls: &mut Vec<CallCode>,
    callee: Option<usize>,
    actuals: usize,
) -> Result<usize, NoMemory>
    ensures place { IfOk result (λ place. place ≡ length calls.old.items) }
    ensures listed { OnOk result (calls.new.items ≡ calls.old.items ++ next_call calls.old.items
        callee actuals ∷ []) }
{
    let place = calls.len();
    let call = CallCode {
        number: place + 1,
        callee,
        actuals,
    };
    match calls.push(call) {
        Ok(()) => Ok(place),
        Err(_) => Err(NoMemory),
    }
}

/// The intrinsic function of this name; `MIN0` for any other name.
fn function_of(name: &Name) -> Function
    ensures { result ≡ function_of name.now }
{
    let bytes = name.as_bytes();
    if bytes == b"IABS".as_slice() {
        Function::Absolute
    } else if bytes == b"MOD".as_slice() {
        Function::Modulo
    } else if bytes == b"MAX0".as_slice() {
        Function::Greatest
    } else {
        Function::Least
    }
}

/// What is told once the operand of a lazy operator is known: the instruction at a place leaves out all behind it.
fn patch(out: &mut Vec<Instr>, place: usize, instr: Instr)
    requires { place < length out.old.items }
    ensures { out.new.items ≡ set out.old.items place instr }
{
    out[place] = instr;
}

/// Adds the code of a name: its cells, or what the first of them holds.
fn code_name(scope: &Scope, out: &mut Vec<Instr>, reads: bool, name: &Name) -> Result<(), NoMemory>
    ensures { OnOk result (out.new.items ≡ out.old.items ++ name_pushed scope.now.names.now
        reads name.now ∷ []) }
{
    let slot = scope.slot(name);
    if reads {
        push(out, Instr::Load(slot))
    } else {
        push(out, Instr::Place(slot))
    }
}

/// Adds what stands behind the values in the brackets behind a name that is no call: the element, which is read where
/// it is wanted for its value, or the intrinsic function.
fn close(
    scope: &Scope,
    out: &mut Vec<Instr>,
    reads: bool,
    name: &Name,
    count: usize,
) -> Result<(), NoMemory>
    ensures { OnOk result (out.new.items ≡ out.old.items ++ closing scope.now.names.now
        reads name.now (applied (unit_of scope.now) name.now) count) }
{
    if scope.book.is_call(name) {
        return Ok(());
    }
    if scope.book.dims(name).is_empty() {
        return push(out, Instr::BuiltIn(function_of(name), count));
    }
    push(out, Instr::Array(scope.slot(name), count))?;
    if reads {
        push(out, Instr::Value)
    } else {
        Ok(())
    }
}

/// Adds the code of an expression, which is read for its value or only taken, and the calls in it.
#[cycle(coding)]
pub fn code_of(
    scope: &Scope,
    calls: &mut Vec<CallCode>,
    out: &mut Vec<Instr>,
    reads: bool,
    e: &Expr,
) -> Result<(), NoMemory>
    ensures calls { OnOk result (calls.new.items ≡ with_calls scope.now
        (sites_in (unit_of scope.now) e.now) calls.old.items) }
    ensures code { OnOk result (out.new.items ≡ out.old.items ++ pushed (unit_of scope.now)
        scope.now.names.now reads (length calls.old.items) e.now) }
{
    match e {
        Expr::Const(c) => push(out, Instr::Number(*c)),
        Expr::Truth(b) => push(out, Instr::Truth(*b)),
        Expr::Var(x) => code_name(scope, out, reads, x),
        Expr::Apply(f, args) => {
            let args = args.as_slice();
            if scope.book.is_call(f) {
                let place = push_call(calls, scope.function(f), args.len())?;
                code_actuals(scope, calls, out, args)?;
                push(out, Instr::Refer(place))
            } else {
                code_values(scope, calls, out, args)?;
                close(scope, out, reads, f, args.len())
            }
        }
        Expr::Paren(a) => code_of(scope, calls, out, true, a.get()),
        Expr::Pos(a) => code_of(scope, calls, out, true, a.get()),
        Expr::Neg(a) => {
            code_of(scope, calls, out, true, a.get())?;
            push(out, Instr::Negate)
        }
        Expr::Power(a, n) => {
            code_of(scope, calls, out, true, a.get())?;
            push(out, Instr::Raise(*n))
        }
        Expr::Not(a) => {
            code_of(scope, calls, out, true, a.get())?;
            push(out, Instr::Negation)
        }
        Expr::Bin(o, a, b) => {
            code_of(scope, calls, out, true, a.get())?;
            code_of(scope, calls, out, true, b.get())?;
            push(out, Instr::Operation(*o))
        }
        Expr::Rel(o, a, b) => {
            code_of(scope, calls, out, true, a.get())?;
            code_of(scope, calls, out, true, b.get())?;
            push(out, Instr::Comparison(*o))
        }
        Expr::And(a, b) => {
            code_of(scope, calls, out, true, a.get())?;
            let place = out.len();
            push(out, Instr::SkipFalse(0))?;
            code_of(scope, calls, out, true, b.get())?;
            push(out, Instr::Both)?;
            patch(out, place, Instr::SkipFalse(out.len() - place - 1));
            Ok(())
        }
        Expr::Or(a, b) => {
            code_of(scope, calls, out, true, a.get())?;
            let place = out.len();
            push(out, Instr::SkipTrue(0))?;
            code_of(scope, calls, out, true, b.get())?;
            push(out, Instr::Either)?;
            patch(out, place, Instr::SkipTrue(out.len() - place - 1));
            Ok(())
        }
    }
}

/// Adds the code of the expressions in the brackets behind a name, each of which is read for its value.
#[cycle(coding)]
fn code_values(
    scope: &Scope,
    calls: &mut Vec<CallCode>,
    out: &mut Vec<Instr>,
    args: &[Expr],
) -> Result<(), NoMemory>
    ensures calls { OnOk result (calls.new.items ≡ with_calls scope.now
        (flat_map (sites_in (unit_of scope.now)) args.now) calls.old.items) }
    ensures code { OnOk result (out.new.items ≡ out.old.items ++ values_listed
        (unit_of scope.now) scope.now.names.now (length calls.old.items) args.now) }
{
    for e in args {
        code_of(scope, calls, out, true, e)?;
    }
    Ok(())
}

/// Adds the code of actuals, each of which is only taken.
#[cycle(coding)]
pub fn code_actuals(
    scope: &Scope,
    calls: &mut Vec<CallCode>,
    out: &mut Vec<Instr>,
    args: &[Expr],
) -> Result<(), NoMemory>
    ensures calls { OnOk result (calls.new.items ≡ with_calls scope.now
        (flat_map (sites_in (unit_of scope.now)) args.now) calls.old.items) }
    ensures code { OnOk result (out.new.items ≡ out.old.items ++ actuals_listed
        (unit_of scope.now) scope.now.names.now (length calls.old.items) args.now) }
{
    for e in args {
        code_of(scope, calls, out, false, e)?;
    }
    Ok(())
}
