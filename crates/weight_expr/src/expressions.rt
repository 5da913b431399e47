// Expressions.
ghost use Rattle.std.specs.Prelude.{◌≡◌, map, IfOk, OnOk};
ghost use Rattle.fort_syntax.specs.Names as text;
ghost use Rattle.weight_calls.specs.Operands.{operand_of};
ghost use Rattle.weight_calls.specs.Subjects.{sight_of};
ghost use Rattle.weight_terms.specs.Held.{held};
ghost use Rattle.weight_tallies.specs.Tallies as tally;
ghost use Rattle.weight_expr.specs.Listed.{operands_listed, values_listed};
ghost use Rattle.weight_expr.specs.Parts.{bracketed_part, denied_part, joined_part, negated_part, operated_part, raised_part};

use crate::functions::{Bracketed, applied, intrinsic_weight, test_subscripts};
use crate::operations::{constant, next, operate, pair, power, read, read_operand};
use edge_io::NoMemory;
use fort_syntax::{BinOp, Expr, Name};
use weight_calls::{Operand, Subject, refer};
use weight_caps::{Load, plus, sum_of};
use weight_terms::NameWeights;

/// An element, an intrinsic function, or a reference to a FUNCTION of the deck.
#[cycle(expressions)]
fn applied_weight(
    subject: &Subject,
    names: &NameWeights,
    load: &mut Load,
    name: &Name,
    args: &[Expr],
) -> Result<Operand, NoMemory>
    ensures load { OnOk result (load.new ≡ (tally.apply_weight (sight_of subject.now)
        (held names.now) name.now (text.applied subject.now.book.now.unit.now name.now)
        (values_listed (sight_of subject.now) (held names.now) args.now)
        (operands_listed (sight_of subject.now) (held names.now) args.now) load.old).load) }
    ensures value { IfOk result (λ x. operand_of x ≡ (tally.apply_weight (sight_of subject.now)
        (held names.now) name.now (text.applied subject.now.book.now.unit.now name.now)
        (values_listed (sight_of subject.now) (held names.now) args.now)
        (operands_listed (sight_of subject.now) (held names.now) args.now) load.old).value) }
{
    match applied(subject.book, name) {
        Bracketed::Element(dims) => {
            let Ok(subscripts) = values(subject, names, load, args) else {
                return Err(NoMemory);
            };
            test_subscripts(load, subscripts.as_slice(), dims);
            Ok(Operand::Part(next(plus(names.of(name), sum_of(subscripts.as_slice())))))
        }
        Bracketed::BuiltIn(function) => {
            let Ok(weights) = values(subject, names, load, args) else {
                return Err(NoMemory);
            };
            Ok(Operand::Computed(intrinsic_weight(load, function, weights.as_slice())))
        }
        Bracketed::Reference => {
            let Ok(actuals) = operands(subject, names, load, args) else {
                return Err(NoMemory);
            };
            let number = subject.numbers.function(subject.scene.books.units, name);
            let Ok(()) = refer(subject, number, names, actuals.as_slice(), load) else {
                return Err(NoMemory);
            };
            Ok(Operand::Computed(1))
        }
    }
}

/// What stands before the second side of an operator: the operator, and the weight of the first side.
#[derive(Clone, Copy, Debug)]
struct Before {
    operator: BinOp,
    first: u32,
}

/// An expression in brackets, or with the sign `+`.
#[cycle(expressions)]
fn bracketed(
    subject: &Subject,
    names: &NameWeights,
    load: &mut Load,
    e: &Expr,
) -> Result<Operand, NoMemory>
    ensures load { OnOk result (load.new ≡ (bracketed_part (sight_of subject.now)
        (held names.now) e.now load.old).load) }
    ensures value { IfOk result (λ x. operand_of x ≡ (bracketed_part (sight_of subject.now)
        (held names.now) e.now load.old).value) }
{
    let Ok(weight) = value(subject, names, load, e) else {
        return Err(NoMemory);
    };
    Ok(Operand::Computed(weight))
}

/// An expression with the sign `-`.
#[cycle(expressions)]
fn negated(
    subject: &Subject,
    names: &NameWeights,
    load: &mut Load,
    e: &Expr,
) -> Result<Operand, NoMemory>
    ensures load { OnOk result (load.new ≡ (negated_part (sight_of subject.now)
        (held names.now) e.now load.old).load) }
    ensures value { IfOk result (λ x. operand_of x ≡ (negated_part (sight_of subject.now)
        (held names.now) e.now load.old).value) }
{
    let Ok(weight) = value(subject, names, load, e) else {
        return Err(NoMemory);
    };
    Ok(Operand::Computed(read(load, next(weight))))
}

/// The opposite of a condition.
#[cycle(expressions)]
fn denied(
    subject: &Subject,
    names: &NameWeights,
    load: &mut Load,
    e: &Expr,
) -> Result<Operand, NoMemory>
    ensures load { OnOk result (load.new ≡ (denied_part (sight_of subject.now)
        (held names.now) e.now load.old).load) }
    ensures value { IfOk result (λ x. operand_of x ≡ (denied_part (sight_of subject.now)
        (held names.now) e.now load.old).value) }
{
    let Ok(weight) = value(subject, names, load, e) else {
        return Err(NoMemory);
    };
    Ok(Operand::Computed(next(weight)))
}

/// A power of an expression.
#[cycle(expressions)]
fn raised(
    subject: &Subject,
    names: &NameWeights,
    load: &mut Load,
    exponent: u8,
    e: &Expr,
) -> Result<Operand, NoMemory>
    ensures load { OnOk result (load.new ≡ (raised_part (sight_of subject.now)
        (held names.now) exponent e.now load.old).load) }
    ensures value { IfOk result (λ x. operand_of x ≡ (raised_part (sight_of subject.now)
        (held names.now) exponent e.now load.old).value) }
{
    let Ok(weight) = value(subject, names, load, e) else {
        return Err(NoMemory);
    };
    Ok(Operand::Computed(power(load, weight, exponent)))
}

/// A relation, or a conjunction or disjunction, with its second side.
#[cycle(expressions)]
fn joined(
    subject: &Subject,
    names: &NameWeights,
    load: &mut Load,
    first: u32,
    e: &Expr,
) -> Result<Operand, NoMemory>
    ensures load { OnOk result (load.new ≡ (joined_part (sight_of subject.now)
        (held names.now) first e.now load.old).load) }
    ensures value { IfOk result (λ x. operand_of x ≡ (joined_part (sight_of subject.now)
        (held names.now) first e.now load.old).value) }
{
    let Ok(weight) = value(subject, names, load, e) else {
        return Err(NoMemory);
    };
    Ok(Operand::Computed(pair(first, weight)))
}

/// An operator with its second side.
#[cycle(expressions)]
fn operated(
    subject: &Subject,
    names: &NameWeights,
    load: &mut Load,
    before: &Before,
    e: &Expr,
) -> Result<Operand, NoMemory>
    ensures load { OnOk result (load.new ≡ (operated_part (sight_of subject.now)
        (held names.now) before.now.operator before.now.first e.now load.old).load) }
    ensures value { IfOk result (λ x. operand_of x ≡ (operated_part (sight_of subject.now)
        (held names.now) before.now.operator before.now.first e.now load.old).value) }
{
    let Ok(weight) = value(subject, names, load, e) else {
        return Err(NoMemory);
    };
    Ok(Operand::Computed(operate(load, before.operator, before.first, weight)))
}

/// An expression as an operand, which is not read where it is a bare name or an element.
#[cycle(expressions)]
fn operand(
    subject: &Subject,
    names: &NameWeights,
    load: &mut Load,
    e: &Expr,
) -> Result<Operand, NoMemory>
    ensures load { OnOk result (load.new ≡ (tally.operand (sight_of subject.now)
        (held names.now) e.now load.old).load) }
    ensures value { IfOk result (λ x. operand_of x ≡ (tally.operand (sight_of subject.now)
        (held names.now) e.now load.old).value) }
{
    match e {
        Expr::Const(number) => Ok(Operand::Computed(constant(subject, load, *number))),
        Expr::Truth(_) => Ok(Operand::Computed(1)),
        Expr::Var(name) => Ok(Operand::Bare(*name, names.of(name))),
        Expr::Apply(name, args) => applied_weight(subject, names, load, name, args.as_slice()),
        Expr::Paren(a) => bracketed(subject, names, load, a.get()),
        Expr::Pos(a) => bracketed(subject, names, load, a.get()),
        Expr::Neg(a) => negated(subject, names, load, a.get()),
        Expr::Not(a) => denied(subject, names, load, a.get()),
        Expr::Power(a, exponent) => raised(subject, names, load, *exponent, a.get()),
        Expr::Bin(operator, a, b) => {
            let Ok(first) = value(subject, names, load, a.get()) else {
                return Err(NoMemory);
            };
            let before = Before {
                operator: *operator,
                first,
            };
            operated(subject, names, load, &before, b.get())
        }
        Expr::Rel(_, a, b) => {
            let Ok(first) = value(subject, names, load, a.get()) else {
                return Err(NoMemory);
            };
            joined(subject, names, load, first, b.get())
        }
        Expr::And(a, b) => {
            let Ok(first) = value(subject, names, load, a.get()) else {
                return Err(NoMemory);
            };
            joined(subject, names, load, first, b.get())
        }
        Expr::Or(a, b) => {
            let Ok(first) = value(subject, names, load, a.get()) else {
                return Err(NoMemory);
            };
            joined(subject, names, load, first, b.get())
        }
    }
}

/// The value of an expression.
#[cycle(expressions)]
pub fn value(
    subject: &Subject,
    names: &NameWeights,
    load: &mut Load,
    e: &Expr,
) -> Result<u32, NoMemory>
    ensures load { OnOk result (load.new ≡ (tally.value (sight_of subject.now)
        (held names.now) e.now load.old).load) }
    ensures value { IfOk result (λ n. n ≡ (tally.value (sight_of subject.now)
        (held names.now) e.now load.old).value) }
{
    let Ok(part) = operand(subject, names, load, e) else {
        return Err(NoMemory);
    };
    Ok(read_operand(load, part))
}

/// The values of expressions, one after another.
#[cycle(expressions)]
pub fn values(
    subject: &Subject,
    names: &NameWeights,
    load: &mut Load,
    args: &[Expr],
) -> Result<Vec<u32>, NoMemory>
    ensures load { OnOk result (load.new ≡ (values_listed (sight_of subject.now)
        (held names.now) args.now load.old).load) }
    ensures value { IfOk result (λ ns. ns.items ≡ (values_listed (sight_of subject.now)
        (held names.now) args.now load.old).value) }
{
    let mut weights = Vec::new(subject.alloc);
    for e in args {
        let Ok(weight) = value(subject, names, load, e) else {
            return Err(NoMemory);
        };
        let Ok(()) = weights.push(weight) else {
            return Err(NoMemory);
        };
    }
    Ok(weights)
}

/// Expressions as operands, one after another.
#[cycle(expressions)]
pub fn operands(
    subject: &Subject,
    names: &NameWeights,
    load: &mut Load,
    args: &[Expr],
) -> Result<Vec<Operand>, NoMemory>
    ensures load { OnOk result (load.new ≡ (operands_listed (sight_of subject.now)
        (held names.now) args.now load.old).load) }
    ensures value { IfOk result (λ xs. map operand_of xs.items
        ≡ (operands_listed (sight_of subject.now) (held names.now) args.now load.old).value) }
{
    let mut found = Vec::new(subject.alloc);
    for e in args {
        let Ok(part) = operand(subject, names, load, e) else {
            return Err(NoMemory);
        };
        let Ok(()) = found.push(part) else {
            return Err(NoMemory);
        };
    }
    Ok(found)
}
