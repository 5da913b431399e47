// A text of a statement.
ghost use Rattle.std.specs.Prelude.{◌≡◌, drop, codes};
ghost use Rattle.fort_syntax.specs.Spelled.{tightness, operator, relation, truth};
ghost use Rattle.stmt_parse.specs.Writing.{put, ◌⊕◌, write_name, write_digits, write_constant, write_label, write_exponent, tight, write_expression, in_round, write_more, write_list};
ghost use Rattle.stmt_parse.specs.Wrote.{Wrote};

use crate::Lack;
use crate::chains::binding;
use crate::parts::tightness;
use crate::tokens::is_name;
use fort_syntax::{BinOp, Expr, Name, RelOp};

// A text behind another.
pub(crate) fn put(out: &mut Vec<u8>, text: &[u8]) -> Result<(), Lack>
    ensures { Wrote result out.new.items (put text.now out.old.items) }
{
    match out.extend_from_slice(text) {
        Ok(()) => Ok(()),
        Err(_) => Err(Lack::Memory),
    }
}

pub(crate) fn write_name(out: &mut Vec<u8>, name: Name) -> Result<(), Lack>
    ensures { Wrote result out.new.items (write_name name out.old.items) }
{
    if !is_name(name.as_bytes()) {
        return Err(Lack::Spelling);
    }
    put(out, name.as_bytes())
}

#[tactic(auto, unfolding(crate::specs::Writing::write_digits))]
fn write_digits(out: &mut Vec<u8>, places: usize, n: u64) -> Result<(), Lack>
    ensures { Wrote result out.new.items (write_digits places n out.old.items) }
{
    if places == 0 {
        return Ok(());
    }
    if n >= 10 {
        write_digits(out, places - 1, n / 10)?;
    }
    put(out, &[48 + (n % 10) as u8])
}

pub(crate) fn write_constant(out: &mut Vec<u8>, n: u64) -> Result<(), Lack>
    ensures { Wrote result out.new.items (write_constant n out.old.items) }
{
    if n >= 1_000_000_000_000_000_000 {
        return Err(Lack::Spelling);
    }
    write_digits(out, 18, n)
}

pub(crate) fn write_label(out: &mut Vec<u8>, label: u32) -> Result<(), Lack>
    ensures { Wrote result out.new.items (write_label label out.old.items) }
{
    if label == 0 || label >= 100_000 {
        return Err(Lack::Spelling);
    }
    write_digits(out, 5, u64::from(label))
}

// Names behind the first, from one on.
fn write_more_names(out: &mut Vec<u8>, names: &[Name], i: usize) -> Result<(), Lack>
    ensures { Wrote result out.new.items (write_more write_name (drop i names.now) out.old.items) }
{
    if i >= names.len() {
        return Ok(());
    }
    put(out, b",")?;
    write_name(out, names[i])?;
    write_more_names(out, names, i + 1)
}

pub(crate) fn write_names(out: &mut Vec<u8>, names: &[Name]) -> Result<(), Lack>
    ensures { Wrote result out.new.items (write_list write_name names.now out.old.items) }
{
    if names.is_empty() {
        return Err(Lack::Spelling);
    }
    write_name(out, names[0])?;
    write_more_names(out, names, 1)
}

fn write_exponent(out: &mut Vec<u8>, n: u8) -> Result<(), Lack>
    ensures { Wrote result out.new.items (write_exponent n out.old.items) }
{
    if n == 0 || n > 9 {
        return Err(Lack::Spelling);
    }
    put(out, &[48 + n])
}

fn operator(op: BinOp) -> &'static [u8]
    ensures { result.now ≡ operator op }
{
    match op {
        BinOp::Add => b"+",
        BinOp::Sub => b"-",
        BinOp::Mul => b"*",
        BinOp::Div => b"/",
    }
}

fn relation(op: RelOp) -> &'static [u8]
    ensures { result.now ≡ relation op }
{
    match op {
        RelOp::Lt => b".LT.",
        RelOp::Le => b".LE.",
        RelOp::Eq => b".EQ.",
        RelOp::Ne => b".NE.",
        RelOp::Ge => b".GE.",
        RelOp::Gt => b".GT.",
    }
}

fn truth(b: bool) -> &'static [u8]
    ensures { result.now ≡ truth b }
{
    if b { b".TRUE." } else { b".FALSE." }
}

#[cycle(written)]
// An expression that is bound tightly enough.
fn write_tight(out: &mut Vec<u8>, k: u8, e: &Expr) -> Result<(), Lack>
    ensures { Wrote result out.new.items (tight k e.now (write_expression e.now) out.old.items) }
{
    if k > binding(e) {
        return Err(Lack::Spelling);
    }
    write_expression(out, e)
}

#[cycle(written)]
// A sign or .NOT. and its part.
fn write_signed(out: &mut Vec<u8>, sign: &[u8], k: u8, e: &Expr) -> Result<(), Lack>
    ensures { Wrote result out.new.items ((put sign.now ⊕ tight k e.now (write_expression e.now))
        out.old.items) }
{
    put(out, sign)?;
    write_tight(out, k, e)
}

#[cycle(written)]
// An expression in brackets.
pub(crate) fn write_round(out: &mut Vec<u8>, e: &Expr) -> Result<(), Lack>
    ensures { Wrote result out.new.items (in_round (write_expression e.now) out.old.items) }
{
    put(out, b"(")?;
    write_expression(out, e)?;
    put(out, b")")
}

#[cycle(written)]
// Arguments behind the first.
fn write_more_arguments(out: &mut Vec<u8>, args: &[Expr]) -> Result<(), Lack>
    ensures { Wrote result out.new.items (write_more write_expression (drop 1 args.now) out.old.items) }
{
    let mut i = 1;
    while i < args.len() {
        put(out, b",")?;
        write_expression(out, &args[i])?;
        i += 1;
    }
    Ok(())
}

#[cycle(written)]
// Arguments in brackets.
pub(crate) fn write_arguments(out: &mut Vec<u8>, args: &[Expr]) -> Result<(), Lack>
    ensures { Wrote result out.new.items (in_round (write_list write_expression args.now) out.old.items) }
{
    put(out, b"(")?;
    if args.is_empty() {
        return Err(Lack::Spelling);
    }
    write_expression(out, &args[0])?;
    write_more_arguments(out, args)?;
    put(out, b")")
}

#[cycle(written)]
fn write_power(out: &mut Vec<u8>, e: &Expr, n: u8) -> Result<(), Lack>
    ensures { Wrote result out.new.items ((tight 7 e.now (write_expression e.now) ⊕ put (codes "**") ⊕ write_exponent n) out.old.items) }
{
    write_tight(out, 7, e)?;
    put(out, b"**")?;
    write_exponent(out, n)
}

#[cycle(written)]
pub(crate) fn write_applied(out: &mut Vec<u8>, name: Name, args: &[Expr]) -> Result<(), Lack>
    ensures { Wrote result out.new.items
        ((write_name name ⊕ in_round (write_list write_expression args.now)) out.old.items) }
{
    write_name(out, name)?;
    write_arguments(out, args)
}

#[cycle(written)]
#[tactic(auto, using(crate::proofs::WritingTrees::write_apply, crate::proofs::WritingTrees::write_paren, crate::proofs::WritingTrees::write_pos, crate::proofs::WritingTrees::write_neg, crate::proofs::WritingTrees::write_pow, crate::proofs::WritingTrees::write_bin, crate::proofs::WritingTrees::write_rel, crate::proofs::WritingTrees::write_not, crate::proofs::WritingTrees::write_and, crate::proofs::WritingTrees::write_or))]
pub(crate) fn write_expression(out: &mut Vec<u8>, e: &Expr) -> Result<(), Lack>
    ensures { Wrote result out.new.items (write_expression e.now out.old.items) }
{
    match e {
        Expr::Const(n) => write_constant(out, *n),
        Expr::Truth(b) => put(out, truth(*b)),
        Expr::Var(name) => write_name(out, *name),
        Expr::Apply(name, args) => write_applied(out, *name, args.as_slice()),
        Expr::Paren(a) => write_round(out, a.get()),
        Expr::Pos(a) => write_signed(out, b"+", 5, a.get()),
        Expr::Neg(a) => write_signed(out, b"-", 5, a.get()),
        Expr::Power(a, n) => write_power(out, a.get(), *n),
        Expr::Not(a) => write_signed(out, b".NOT.", 3, a.get()),
        Expr::Bin(o, a, b) => {
            let k = tightness(*o);
            write_tight(out, k, a.get())?;
            write_signed(out, operator(*o), k + 1, b.get())
        }
        Expr::Rel(o, a, b) => {
            write_tight(out, 4, a.get())?;
            write_signed(out, relation(*o), 4, b.get())
        }
        Expr::And(a, b) => {
            write_tight(out, 1, a.get())?;
            write_signed(out, b".AND.", 2, b.get())
        }
        Expr::Or(a, b) => {
            write_tight(out, 0, a.get())?;
            write_signed(out, b".OR.", 1, b.get())
        }
    }
}
