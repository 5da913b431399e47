// Expressions, whose operands are evaluated from the left, and before their operators.
ghost use Rattle.std.specs.Prelude.{length, map, IfOk};
ghost use Rattle.formula.specs.Pool.{AllBelow, IsIn, tree_of};
ghost use Rattle.fort_model.specs.Program.{Program};
ghost use Rattle.fort_model.specs.WalkExpr as steps;
ghost use Rattle.fort_syntax.specs.TreePatterns.{row_of};
ghost use Rattle.path_scene.specs.Scenes.{IsReady};
ghost use Rattle.walk_intrinsics.specs.Functions.{meaning};
ghost use Rattle.walk_operands.specs.Operands.{AreOperandsIn, IsOperandIn, operand_tree, operand_trees};
ghost use Rattle.walk_expr.specs.Parts as parts;
ghost use Rattle.walk_setting.specs.Settings.{DoesIn};
ghost use Rattle.walk_state.specs.Moments.{Follows, IsWalk, moment};

use edge_io::NoMemory;
use formula::TermId;
use fort_syntax::{Expr, Name};
use walk_calls::refer;
use walk_intrinsics::{Function, intrinsic_of, intrinsic_value};
use walk_operands::Operand;
use walk_operators::{
    Binary, Test, Unary, binary_value, constant_of, element_at, name_of, read_operand, truth_of,
    unary_value,
};
use walk_setting::Card;
use walk_state::Walk;

/// The operand that an expression is: what a bare name or an element stands for, which is not read
/// yet, or what is computed.
#[cycle(evaluate)]
pub fn operand(walk: &mut Walk, card: &Card, e: &Expr) -> Result<Operand, NoMemory>
    requires well { IsWalk walk.old }
    requires ready { (p : Program) × IsReady walk.old.pool card.now.setting.now.scene.now p }
    ensures on { Follows walk.old walk.new }
    ensures is_in { IfOk result (λ x. IsOperandIn (length walk.new.pool) x) }
    ensures did { IfOk result (λ x. DoesIn walk.old.pool card.now.setting.now (moment walk.old)
        (λ w. steps.operand w card.now.number (moment walk.old).now e.now) (moment walk.new)
        (operand_tree walk.new.pool x)) }
{
    match e {
        Expr::Const(c) => constant_of(walk, card.setting.scene.bound, card.number, *c),
        Expr::Truth(b) => truth_of(walk, *b),
        Expr::Var(x) => name_of(walk, x),
        Expr::Apply(a, args) => applied(walk, card, a, args.as_slice()),
        Expr::Paren(a) => single(walk, card, Unary::Kept, a.get()),
        Expr::Pos(a) => single(walk, card, Unary::Kept, a.get()),
        Expr::Neg(a) => single(walk, card, Unary::Negative, a.get()),
        Expr::Power(a, n) => single(walk, card, Unary::Power(*n), a.get()),
        Expr::Not(a) => single(walk, card, Unary::Not, a.get()),
        Expr::Bin(op, a, b) => {
            let first = part_value(walk, card, a.get())?;
            second(walk, card, Binary::Number(*op), first, b.get())
        }
        Expr::Rel(op, a, b) => {
            let first = part_value(walk, card, a.get())?;
            let test = Binary::Truth(Test::Relation(*op));
            second(walk, card, test, first, b.get())
        }
        Expr::And(a, b) => {
            let first = part_value(walk, card, a.get())?;
            second(walk, card, Binary::Truth(Test::And), first, b.get())
        }
        Expr::Or(a, b) => {
            let first = part_value(walk, card, a.get())?;
            second(walk, card, Binary::Truth(Test::Or), first, b.get())
        }
    }
}

// The value of a part of an expression. Behind it the scene is as ready as before.
#[cycle(evaluate)]
fn part_value(walk: &mut Walk, card: &Card, e: &Expr) -> Result<TermId, NoMemory>
    requires well { IsWalk walk.old }
    requires ready { (p : Program) × IsReady walk.old.pool card.now.setting.now.scene.now p }
    ensures on { Follows walk.old walk.new }
    ensures is_in { IfOk result (λ id. IsIn walk.new.pool id) }
    ensures ready { IfOk result (λ _. (p : Program)
        × IsReady walk.new.pool card.now.setting.now.scene.now p) }
    ensures did { IfOk result (λ id. DoesIn walk.old.pool card.now.setting.now (moment walk.old)
        (λ w. steps.value w card.now.number (moment walk.old).now e.now) (moment walk.new)
        (tree_of walk.new.pool id)) }
{
    let part = operand(walk, card, e)?;
    let id = read_operand(walk, card.number, part)?;
    Ok(id)
}

// An operator of one value.
#[cycle(evaluate)]
fn single(walk: &mut Walk, card: &Card, op: Unary, a: &Expr) -> Result<Operand, NoMemory>
    requires well { IsWalk walk.old }
    requires ready { (p : Program) × IsReady walk.old.pool card.now.setting.now.scene.now p }
    ensures on { Follows walk.old walk.new }
    ensures is_in { IfOk result (λ x. IsOperandIn (length walk.new.pool) x) }
    ensures did { IfOk result (λ x. DoesIn walk.old.pool card.now.setting.now (moment walk.old)
        (λ w. parts.of_single w card.now.number (moment walk.old).now op a.now) (moment walk.new)
        (operand_tree walk.new.pool x)) }
{
    let first = part_value(walk, card, a)?;
    let id = unary_value(walk, card.number, op, first)?;
    Ok(Operand::Computed(id))
}

// An operator of two values, behind the first of them.
#[cycle(evaluate)]
fn second(
    walk: &mut Walk,
    card: &Card,
    op: Binary,
    first: TermId,
    b: &Expr,
) -> Result<Operand, NoMemory>
    requires well { IsWalk walk.old }
    requires ready { (p : Program) × IsReady walk.old.pool card.now.setting.now.scene.now p }
    requires first { IsIn walk.old.pool first }
    ensures on { Follows walk.old walk.new }
    ensures is_in { IfOk result (λ x. IsOperandIn (length walk.new.pool) x) }
    ensures did { IfOk result (λ x. DoesIn walk.old.pool card.now.setting.now (moment walk.old)
        (λ w. parts.of_second w card.now.number (moment walk.old).now op
        (tree_of walk.old.pool first) b.now) (moment walk.new) (operand_tree walk.new.pool x)) }
{
    let other = part_value(walk, card, b)?;
    let id = binary_value(walk, card.number, op, first, other)?;
    Ok(Operand::Computed(id))
}

/// The value of an expression, which is read where it is a name or an element.
pub fn value(walk: &mut Walk, card: &Card, e: &Expr) -> Result<TermId, NoMemory>
    requires well { IsWalk walk.old }
    requires ready { (p : Program) × IsReady walk.old.pool card.now.setting.now.scene.now p }
    ensures on { Follows walk.old walk.new }
    ensures is_in { IfOk result (λ id. IsIn walk.new.pool id) }
    ensures did { IfOk result (λ id. DoesIn walk.old.pool card.now.setting.now (moment walk.old)
        (λ w. steps.value w card.now.number (moment walk.old).now e.now) (moment walk.new)
        (tree_of walk.new.pool id)) }
{
    let Ok(id) = part_value(walk, card, e) else {
        return Err(NoMemory);
    };
    Ok(id)
}

/// The values of expressions in order.
#[cycle(evaluate)]
pub fn values(walk: &mut Walk, card: &Card, args: &[Expr]) -> Result<Vec<TermId>, NoMemory>
    requires well { IsWalk walk.old }
    requires ready { (p : Program) × IsReady walk.old.pool card.now.setting.now.scene.now p }
    ensures on { Follows walk.old walk.new }
    ensures is_in { IfOk result (λ ids. AllBelow (length walk.new.pool) ids.items) }
    ensures did { IfOk result (λ ids. DoesIn walk.old.pool card.now.setting.now (moment walk.old)
        (λ w. steps.values w card.now.number (moment walk.old).now (row_of args.now))
        (moment walk.new) (map (tree_of walk.new.pool) ids.items)) }
{
    let mut all = Vec::new(walk.alloc);
    for e in args {
        let id = part_value(walk, card, e)?;
        let Ok(()) = all.push(id) else {
            return Err(NoMemory);
        };
    }
    Ok(all)
}

/// Expressions in order, which are only taken as operands.
#[cycle(evaluate)]
pub fn operands(walk: &mut Walk, card: &Card, args: &[Expr]) -> Result<Vec<Operand>, NoMemory>
    requires well { IsWalk walk.old }
    requires ready { (p : Program) × IsReady walk.old.pool card.now.setting.now.scene.now p }
    ensures on { Follows walk.old walk.new }
    ensures is_in { IfOk result (λ xs. AreOperandsIn (length walk.new.pool) xs.items) }
    ensures did { IfOk result (λ xs. DoesIn walk.old.pool card.now.setting.now (moment walk.old)
        (λ w. steps.operands w card.now.number (moment walk.old).now (row_of args.now))
        (moment walk.new) (operand_trees walk.new.pool xs.items)) }
{
    let mut all = Vec::new(walk.alloc);
    for e in args {
        let part = operand(walk, card, e)?;
        let Ok(()) = all.push(part) else {
            return Err(NoMemory);
        };
    }
    Ok(all)
}

// An element of an array.
#[cycle(evaluate)]
fn element(walk: &mut Walk, card: &Card, a: &Name, args: &[Expr]) -> Result<Operand, NoMemory>
    requires well { IsWalk walk.old }
    requires ready { (p : Program) × IsReady walk.old.pool card.now.setting.now.scene.now p }
    ensures on { Follows walk.old walk.new }
    ensures is_in { IfOk result (λ x. IsOperandIn (length walk.new.pool) x) }
    ensures did { IfOk result (λ x. DoesIn walk.old.pool card.now.setting.now (moment walk.old)
        (λ w. parts.of_element w card.now.number (moment walk.old).now a.now args.now)
        (moment walk.new) (operand_tree walk.new.pool x)) }
{
    let subscripts = values(walk, card, args)?;
    let dims = card.setting.book.dims(a);
    let part = element_at(walk, card.number, a, dims, subscripts.as_slice())?;
    Ok(part)
}

// An intrinsic function.
#[cycle(evaluate)]
fn built_in(
    walk: &mut Walk,
    card: &Card,
    function: Function,
    args: &[Expr],
) -> Result<Operand, NoMemory>
    requires well { IsWalk walk.old }
    requires ready { (p : Program) × IsReady walk.old.pool card.now.setting.now.scene.now p }
    ensures on { Follows walk.old walk.new }
    ensures is_in { IfOk result (λ x. IsOperandIn (length walk.new.pool) x) }
    ensures did { IfOk result (λ x. DoesIn walk.old.pool card.now.setting.now (moment walk.old)
        (λ w. parts.of_built_in w card.now.number (moment walk.old).now (meaning function) args.now)
        (moment walk.new) (operand_tree walk.new.pool x)) }
{
    let given = values(walk, card, args)?;
    let id = intrinsic_value(walk, card.number, function, given.as_slice())?;
    Ok(Operand::Computed(id))
}

// A reference to a FUNCTION.
#[cycle(evaluate)]
fn reference(walk: &mut Walk, card: &Card, a: &Name, args: &[Expr]) -> Result<Operand, NoMemory>
    requires well { IsWalk walk.old }
    requires ready { (p : Program) × IsReady walk.old.pool card.now.setting.now.scene.now p }
    ensures on { Follows walk.old walk.new }
    ensures is_in { IfOk result (λ x. IsOperandIn (length walk.new.pool) x) }
    ensures did { IfOk result (λ x. DoesIn walk.old.pool card.now.setting.now (moment walk.old)
        (λ w. parts.of_reference w card.now.number (moment walk.old).now a.now args.now)
        (moment walk.new) (operand_tree walk.new.pool x)) }
{
    let actuals = operands(walk, card, args)?;
    let callee = card.setting.function(a);
    let id = refer(walk, card.setting, card.number, callee, actuals.as_slice())?;
    Ok(Operand::Computed(id))
}

// A name with expressions in brackets behind it.
#[cycle(evaluate)]
fn applied(walk: &mut Walk, card: &Card, a: &Name, args: &[Expr]) -> Result<Operand, NoMemory>
    requires well { IsWalk walk.old }
    requires ready { (p : Program) × IsReady walk.old.pool card.now.setting.now.scene.now p }
    ensures on { Follows walk.old walk.new }
    ensures is_in { IfOk result (λ x. IsOperandIn (length walk.new.pool) x) }
    ensures did { IfOk result (λ x. DoesIn walk.old.pool card.now.setting.now (moment walk.old)
        (λ w. parts.of_applied w card.now.number (moment walk.old).now a.now args.now)
        (moment walk.new) (operand_tree walk.new.pool x)) }
{
    if !card.setting.book.dims(a).is_empty() {
        return element(walk, card, a, args);
    }
    match intrinsic_of(a) {
        Some(function) => built_in(walk, card, function, args),
        None => reference(walk, card, a, args),
    }
}
