// A text of a statement, form by form.
ghost use Rattle.std.specs.Prelude.{◌≡◌, drop, codes, ◌++◌};
ghost use Rattle.fort_syntax.specs.Grammar.{sort, optional_sort, is_carried};
ghost use Rattle.stmt_parse.specs.Parsing.{Gives};
ghost use Rattle.stmt_parse.specs.Writing.{put, ◌⊕◌, write_name, write_label, write_expression, write_more, write_list, in_round, write_brackets, write_dim, write_item, write_array, write_slashed, write_first_block, write_more_groups, write_groups, write_left, write_param, write_step, write_actuals, write_condition, where_77, given, write_form, text_of};
ghost use Rattle.stmt_parse.specs.Wrote.{Wrote, Writes};

use crate::Lack;
use crate::misspelled::is_deep;
use crate::writing::{
    put, write_applied, write_arguments, write_constant, write_expression, write_label, write_name,
    write_names, write_round,
};
use edge_io::List;
use fort_syntax::{BlockName, Dialect, Dim, Expr, Group, Item, Name, Param, Sort, Stmt};
use std::alloc::Global;

// Labels behind the first, from one on.
fn write_more_labels(out: &mut Vec<u8>, labels: &[u32], i: usize) -> Result<(), Lack>
    ensures { Wrote result out.new.items (write_more write_label (drop i labels.now) out.old.items) }
{
    if i >= labels.len() {
        return Ok(());
    }
    put(out, b",")?;
    write_label(out, labels[i])?;
    write_more_labels(out, labels, i + 1)
}

fn write_labels(out: &mut Vec<u8>, labels: &[u32]) -> Result<(), Lack>
    ensures { Wrote result out.new.items (write_list write_label labels.now out.old.items) }
{
    if labels.is_empty() {
        return Err(Lack::Spelling);
    }
    write_label(out, labels[0])?;
    write_more_labels(out, labels, 1)
}

fn write_dim(out: &mut Vec<u8>, dim: Dim) -> Result<(), Lack>
    ensures { Wrote result out.new.items (write_dim dim out.old.items) }
{
    match dim {
        Dim::Fixed(n) => write_constant(out, n),
        Dim::Named(x) => write_name(out, x),
    }
}

// Dimensions behind the first, from one on.
fn write_more_dims(out: &mut Vec<u8>, dims: &[Dim], i: usize) -> Result<(), Lack>
    ensures { Wrote result out.new.items (write_more write_dim (drop i dims.now) out.old.items) }
{
    if i >= dims.len() {
        return Ok(());
    }
    put(out, b",")?;
    write_dim(out, dims[i])?;
    write_more_dims(out, dims, i + 1)
}

// One dimension or more in brackets.
fn write_dims(out: &mut Vec<u8>, dims: &[Dim]) -> Result<(), Lack>
    ensures { Wrote result out.new.items (in_round (write_list write_dim dims.now) out.old.items) }
{
    put(out, b"(")?;
    if dims.is_empty() {
        return Err(Lack::Spelling);
    }
    write_dim(out, dims[0])?;
    write_more_dims(out, dims, 1)?;
    put(out, b")")
}

fn write_array(out: &mut Vec<u8>, item: &Item) -> Result<(), Lack>
    ensures { Wrote result out.new.items (write_array item.now out.old.items) }
{
    write_name(out, item.name)?;
    write_dims(out, item.dims.as_slice())
}

fn write_optional_dims(out: &mut Vec<u8>, dims: &[Dim]) -> Result<(), Lack>
    ensures { Wrote result out.new.items (write_brackets write_dim dims.now out.old.items) }
{
    if dims.is_empty() {
        return put(out, b"");
    }
    write_dims(out, dims)
}

fn write_item(out: &mut Vec<u8>, item: &Item) -> Result<(), Lack>
    ensures { Wrote result out.new.items (write_item item.now out.old.items) }
{
    write_name(out, item.name)?;
    write_optional_dims(out, item.dims.as_slice())
}

// Items behind the first, from one on.
fn write_more_items(out: &mut Vec<u8>, items: &[Item], i: usize) -> Result<(), Lack>
    ensures { Wrote result out.new.items (write_more write_item (drop i items.now) out.old.items) }
{
    if i >= items.len() {
        return Ok(());
    }
    put(out, b",")?;
    write_item(out, &items[i])?;
    write_more_items(out, items, i + 1)
}

fn write_items(out: &mut Vec<u8>, items: &[Item]) -> Result<(), Lack>
    ensures { Wrote result out.new.items (write_list write_item items.now out.old.items) }
{
    if items.is_empty() {
        return Err(Lack::Spelling);
    }
    write_item(out, &items[0])?;
    write_more_items(out, items, 1)
}

// Arrays behind the first, from one on.
fn write_more_arrays(out: &mut Vec<u8>, items: &[Item], i: usize) -> Result<(), Lack>
    ensures { Wrote result out.new.items (write_more write_array (drop i items.now) out.old.items) }
{
    if i >= items.len() {
        return Ok(());
    }
    put(out, b",")?;
    write_array(out, &items[i])?;
    write_more_arrays(out, items, i + 1)
}

fn write_arrays(out: &mut Vec<u8>, items: &[Item]) -> Result<(), Lack>
    ensures { Wrote result out.new.items (write_list write_array items.now out.old.items) }
{
    if items.is_empty() {
        return Err(Lack::Spelling);
    }
    write_array(out, &items[0])?;
    write_more_arrays(out, items, 1)
}

fn write_slashed(out: &mut Vec<u8>, block: BlockName) -> Result<(), Lack>
    ensures { Wrote result out.new.items (write_slashed block out.old.items) }
{
    match block {
        BlockName::Bare => Err(Lack::Spelling),
        BlockName::Slashes => put(out, b"//"),
        BlockName::Named(x) => {
            put(out, b"/")?;
            write_name(out, x)?;
            put(out, b"/")
        }
    }
}

fn write_first_block(out: &mut Vec<u8>, block: BlockName) -> Result<(), Lack>
    ensures { Wrote result out.new.items (write_first_block block out.old.items) }
{
    match block {
        BlockName::Bare => put(out, b""),
        BlockName::Slashes => write_slashed(out, block),
        BlockName::Named(_) => write_slashed(out, block),
    }
}

// Groups behind the first, from one on.
fn write_more_groups(out: &mut Vec<u8>, groups: &[Group], i: usize) -> Result<(), Lack>
    ensures { Wrote result out.new.items (write_more_groups (drop i groups.now) out.old.items) }
{
    if i >= groups.len() {
        return Ok(());
    }
    write_slashed(out, groups[i].block)?;
    write_items(out, groups[i].items.as_slice())?;
    write_more_groups(out, groups, i + 1)
}

fn write_groups(out: &mut Vec<u8>, groups: &[Group]) -> Result<(), Lack>
    ensures { Wrote result out.new.items (write_groups groups.now out.old.items) }
{
    if groups.is_empty() {
        return Err(Lack::Spelling);
    }
    write_first_block(out, groups[0].block)?;
    write_items(out, groups[0].items.as_slice())?;
    write_more_groups(out, groups, 1)
}

// Names in brackets.
fn write_dummies(out: &mut Vec<u8>, names: &[Name]) -> Result<(), Lack>
    ensures { Wrote result out.new.items (in_round (write_list write_name names.now) out.old.items) }
{
    put(out, b"(")?;
    write_names(out, names)?;
    put(out, b")")
}

fn write_optional_dummies(out: &mut Vec<u8>, names: &[Name]) -> Result<(), Lack>
    ensures { Wrote result out.new.items (write_brackets write_name names.now out.old.items) }
{
    if names.is_empty() {
        return put(out, b"");
    }
    write_dummies(out, names)
}

fn write_subroutine(out: &mut Vec<u8>, name: Name, dummies: &[Name]) -> Result<(), Lack>
    ensures { Wrote result out.new.items ((put (codes "SUBROUTINE") ⊕ write_name name ⊕ write_brackets write_name dummies.now) out.old.items) }
{
    put(out, b"SUBROUTINE")?;
    write_name(out, name)?;
    write_optional_dummies(out, dummies)
}

// The first word of a FUNCTION, with its type where one is written.
fn head(sort: Option<Sort>) -> &'static [u8]
    ensures { result.now ≡ optional_sort sort ++ codes "FUNCTION" }
{
    match sort {
        None => b"FUNCTION",
        Some(Sort::Integer) => b"INTEGERFUNCTION",
        Some(Sort::Logical) => b"LOGICALFUNCTION",
    }
}

fn write_function(
    out: &mut Vec<u8>,
    sort: Option<Sort>,
    name: Name,
    dummies: &[Name],
) -> Result<(), Lack>
    ensures { Wrote result out.new.items ((put (optional_sort sort ++ codes "FUNCTION") ⊕ write_name name ⊕ in_round (write_list write_name dummies.now)) out.old.items) }
{
    put(out, head(sort))?;
    write_name(out, name)?;
    write_dummies(out, dummies)
}

fn type_word(kind: Sort) -> &'static [u8]
    ensures { result.now ≡ sort kind }
{
    match kind {
        Sort::Integer => b"INTEGER",
        Sort::Logical => b"LOGICAL",
    }
}

fn write_declare(out: &mut Vec<u8>, kind: Sort, items: &[Item]) -> Result<(), Lack>
    ensures { Wrote result out.new.items ((put (sort kind) ⊕ write_list write_item items.now) out.old.items) }
{
    put(out, type_word(kind))?;
    write_items(out, items)
}

fn write_dimension(out: &mut Vec<u8>, items: &[Item]) -> Result<(), Lack>
    ensures { Wrote result out.new.items ((put (codes "DIMENSION") ⊕ write_list write_array items.now) out.old.items) }
{
    put(out, b"DIMENSION")?;
    write_arrays(out, items)
}

fn write_common(out: &mut Vec<u8>, groups: &[Group]) -> Result<(), Lack>
    ensures { Wrote result out.new.items ((put (codes "COMMON") ⊕ write_groups groups.now) out.old.items) }
{
    put(out, b"COMMON")?;
    write_groups(out, groups)
}

fn write_left(out: &mut Vec<u8>, e: &Expr) -> Result<(), Lack>
    ensures { Wrote result out.new.items (write_left e.now out.old.items) }
{
    match e {
        Expr::Var(name) => write_name(out, *name),
        Expr::Apply(name, args) => write_applied(out, *name, args.as_slice()),
        _ => Err(Lack::Spelling),
    }
}

fn write_assign(out: &mut Vec<u8>, left: &Expr, right: &Expr) -> Result<(), Lack>
    ensures { Wrote result out.new.items ((write_left left.now ⊕ put (codes "=") ⊕ write_expression right.now) out.old.items) }
{
    write_left(out, left)?;
    put(out, b"=")?;
    write_expression(out, right)
}

fn write_go_to(out: &mut Vec<u8>, label: u32) -> Result<(), Lack>
    ensures { Wrote result out.new.items ((put (codes "GOTO") ⊕ write_label label) out.old.items) }
{
    put(out, b"GOTO")?;
    write_label(out, label)
}

fn write_round_labels(out: &mut Vec<u8>, labels: &[u32]) -> Result<(), Lack>
    ensures { Wrote result out.new.items (in_round (write_list write_label labels.now) out.old.items) }
{
    put(out, b"(")?;
    write_labels(out, labels)?;
    put(out, b")")
}

fn write_computed(out: &mut Vec<u8>, labels: &[u32], name: Name) -> Result<(), Lack>
    ensures { Wrote result out.new.items ((put (codes "GOTO") ⊕ in_round (write_list write_label labels.now) ⊕ put (codes ",") ⊕ write_name name) out.old.items) }
{
    put(out, b"GOTO")?;
    write_round_labels(out, labels)?;
    put(out, b",")?;
    write_name(out, name)
}

fn write_arith_if(out: &mut Vec<u8>, e: &Expr, l: u32, m: u32, n: u32) -> Result<(), Lack>
    ensures { Wrote result out.new.items ((put (codes "IF") ⊕ write_condition e.now ⊕ write_label l ⊕ put (codes ",") ⊕ write_label m ⊕ put (codes ",") ⊕ write_label n) out.old.items) }
{
    put(out, b"IF")?;
    write_round(out, e)?;
    write_label(out, l)?;
    put(out, b",")?;
    write_label(out, m)?;
    put(out, b",")?;
    write_label(out, n)
}

fn write_param(out: &mut Vec<u8>, param: Param) -> Result<(), Lack>
    ensures { Wrote result out.new.items (write_param param out.old.items) }
{
    match param {
        Param::Fixed(n) => write_constant(out, n),
        Param::Named(x) => write_name(out, x),
    }
}

fn write_step(out: &mut Vec<u8>, step: Option<Param>) -> Result<(), Lack>
    ensures { Wrote result out.new.items (write_step step out.old.items) }
{
    match step {
        None => put(out, b""),
        Some(param) => {
            put(out, b",")?;
            write_param(out, param)
        }
    }
}

// The values that a DO counts through.
fn write_range(out: &mut Vec<u8>, first: Param, last: Param, by: Option<Param>) -> Result<(), Lack>
    ensures { Wrote result out.new.items ((put (codes "=") ⊕ write_param first ⊕ put (codes ",") ⊕ write_param last ⊕ write_step by) out.old.items) }
{
    put(out, b"=")?;
    write_param(out, first)?;
    put(out, b",")?;
    write_param(out, last)?;
    write_step(out, by)
}

fn write_do(
    out: &mut Vec<u8>,
    label: u32,
    name: Name,
    first: Param,
    last: Param,
    by: Option<Param>,
) -> Result<(), Lack>
    ensures { Wrote result out.new.items ((put (codes "DO") ⊕ write_label label ⊕ write_name name ⊕ put (codes "=") ⊕ write_param first ⊕ put (codes ",") ⊕ write_param last ⊕ write_step by) out.old.items) }
{
    put(out, b"DO")?;
    write_label(out, label)?;
    write_name(out, name)?;
    write_range(out, first, last, by)
}

fn write_actuals(out: &mut Vec<u8>, args: &[Expr]) -> Result<(), Lack>
    ensures { Wrote result out.new.items (write_actuals args.now out.old.items) }
{
    if args.is_empty() {
        return put(out, b"");
    }
    write_arguments(out, args)
}

fn write_call(out: &mut Vec<u8>, name: Name, args: &[Expr]) -> Result<(), Lack>
    ensures { Wrote result out.new.items ((put (codes "CALL") ⊕ write_name name ⊕ write_actuals args.now) out.old.items) }
{
    put(out, b"CALL")?;
    write_name(out, name)?;
    write_actuals(out, args)
}

fn write_77(out: &mut Vec<u8>, dialect: Dialect, word: &[u8]) -> Result<(), Lack>
    ensures { Wrote result out.new.items (where_77 dialect (put word.now) out.old.items) }
{
    match dialect {
        Dialect::Common => Err(Lack::Spelling),
        Dialect::SeventySeven => put(out, word),
    }
}

// `IF` or `ELSEIF`, a condition and `THEN`.
fn write_then(out: &mut Vec<u8>, dialect: Dialect, word: &[u8], e: &Expr) -> Result<(), Lack>
    ensures { Wrote result out.new.items (where_77 dialect (put word.now ⊕ write_condition e.now ⊕ put (codes "THEN")) out.old.items) }
{
    match dialect {
        Dialect::Common => Err(Lack::Spelling),
        Dialect::SeventySeven => {
            put(out, word)?;
            write_round(out, e)?;
            put(out, b"THEN")
        }
    }
}

// What a logical IF may carry.
fn is_carried(stmt: &Stmt) -> bool
    ensures { result ≡ is_carried stmt.now }
{
    match stmt {
        Stmt::Assign(_, _) => true,
        Stmt::GoTo(_) => true,
        Stmt::Computed(_, _) => true,
        Stmt::ArithIf(_, _, _, _) => true,
        Stmt::Call(_, _) => true,
        Stmt::Continue => true,
        Stmt::Return => true,
        _ => false,
    }
}

// `IF` and a condition.
fn write_if(out: &mut Vec<u8>, e: &Expr) -> Result<(), Lack>
    ensures { Wrote result out.new.items ((put (codes "IF") ⊕ write_condition e.now) out.old.items) }
{
    put(out, b"IF")?;
    write_round(out, e)
}

#[cycle(forms)]
fn write_carried(out: &mut Vec<u8>, dialect: Dialect, stmt: &Stmt) -> Result<(), Lack>
    ensures { Wrote result out.new.items (given (is_carried stmt.now) (write_form dialect stmt.now)
        out.old.items) }
{
    if !is_carried(stmt) {
        return Err(Lack::Spelling);
    }
    write_form(out, dialect, stmt)
}

#[cycle(forms)]
fn write_form(out: &mut Vec<u8>, dialect: Dialect, stmt: &Stmt) -> Result<(), Lack>
    ensures { Wrote result out.new.items (write_form dialect stmt.now out.old.items) }
{
    match stmt {
        Stmt::Subroutine(x, dummies) => write_subroutine(out, *x, dummies.as_slice()),
        Stmt::Function(kind, x, dummies) => write_function(out, *kind, *x, dummies.as_slice()),
        Stmt::Declare(kind, items) => write_declare(out, *kind, items.as_slice()),
        Stmt::Dimension(items) => write_dimension(out, items.as_slice()),
        Stmt::Common(groups) => write_common(out, groups.as_slice()),
        Stmt::Assign(left, right) => write_assign(out, left, right),
        Stmt::GoTo(label) => write_go_to(out, *label),
        Stmt::Computed(labels, x) => write_computed(out, labels.as_slice(), *x),
        Stmt::ArithIf(e, l, m, n) => write_arith_if(out, e, *l, *m, *n),
        Stmt::LogicalIf(e, carried) => {
            write_if(out, e)?;
            write_carried(out, dialect, carried.get())
        }
        Stmt::Do(label, x, first, last, by) => write_do(out, *label, *x, *first, *last, *by),
        Stmt::Continue => put(out, b"CONTINUE"),
        Stmt::Call(x, args) => write_call(out, *x, args.as_slice()),
        Stmt::Return => put(out, b"RETURN"),
        Stmt::End => put(out, b"END"),
        Stmt::BlockIf(e) => write_then(out, dialect, b"IF", e),
        Stmt::ElseIf(e) => write_then(out, dialect, b"ELSEIF", e),
        Stmt::Else => write_77(out, dialect, b"ELSE"),
        Stmt::EndIf => write_77(out, dialect, b"ENDIF"),
    }
}

fn text_of(alloc: Global, dialect: Dialect, stmt: &Stmt) -> Result<List<u8>, Lack>
    ensures { Gives (λ l. l) result (text_of dialect stmt.now) }
{
    let mut out = Vec::new(alloc);
    write_form(&mut out, dialect, stmt)?;
    if is_deep(out.as_slice()) {
        return Err(Lack::Spelling);
    }
    Ok(List::from_vec(out))
}

/// A text that spells the statement, without blanks and with numbers without leading zeros. Where
/// no text spells it, that is a want of spelling.
pub fn written(alloc: Global, dialect: Dialect, stmt: &Stmt) -> Result<List<u8>, Lack>
    ensures { Writes dialect stmt.now result }
{
    text_of(alloc, dialect, stmt)
}
