// What statements smash of what is kept.
ghost use Rattle.std.specs.Prelude.{◌≡◌, [], cond, IfOk, OnOk};
ghost use Rattle.std.specs.List.{list_any};
ghost use Rattle.fort_syntax.specs.WellFormed.{IsWellFormedUnit};
ghost use Rattle.fort_syntax.specs.declared.dialect.Dialect.{Dialect};
ghost use Rattle.fort_model.specs.Rules.{breaks_do};
ghost use Rattle.fort_model.specs.Smashes.{set_name, set_by};
ghost use Rattle.smash_table.specs.Smashed.{stmt_names};
ghost use Rattle.do_smashes.specs.Clear.{AreClear, is_do};
ghost use Rattle.do_smashes.specs.Guards.{is_kept, AreKept};
ghost use Rattle.do_smashes.specs.Hits.{unit_of, program_of};

use crate::calls::{Caller, Kept, hits_sites};
use crate::loops::uses_itself;
use call_sites::sites_of_stmt;
use edge_io::{Keys, NoMemory};
use fort_syntax::{Expr, Stmt};
use smash_table::UnitSet;
use std::alloc::Global;

/// Whether the left side of an assignment sets a kept name.
fn hits_left(kept: &Kept, left: &Expr) -> bool
    ensures { result ≡ list_any (is_kept kept.now.guards.now kept.now.at) (set_name left.now) }
{
    match left {
        Expr::Var(x) => kept.has(x),
        Expr::Apply(a, _) => kept.has(a),
        _ => false,
    }
}

/// Whether a statement itself sets a kept name.
fn sets_kept(kept: &Kept, stmt: &Stmt) -> bool
    ensures { result ≡ list_any (is_kept kept.now.guards.now kept.now.at) (set_by stmt.now) }
{
    match stmt {
        Stmt::Assign(left, _) => hits_left(kept, left),
        Stmt::Do(_, x, _, _, _) => kept.has(x),
        Stmt::LogicalIf(_, carried) => sets_kept(kept, carried.get()),
        _ => false,
    }
}

/// Whether a statement smashes a kept name.
fn hits_stmt(
    alloc: Global,
    kept: &Kept,
    caller: &Caller,
    clear: &mut UnitSet,
    stmt: &Stmt,
) -> Result<bool, NoMemory>
    requires { AreClear (program_of caller.now) (unit_of caller.now) kept.now.guards.now
        kept.now.at clear.old }
    ensures hit { IfOk result (λ hit. hit ≡ list_any (is_kept kept.now.guards.now kept.now.at)
        (stmt_names (program_of caller.now) (unit_of caller.now) stmt.now)) }
    ensures clear { OnOk result (AreClear (program_of caller.now) (unit_of caller.now)
        kept.now.guards.now kept.now.at clear.new) }
{
    if sets_kept(kept, stmt) {
        return Ok(true);
    }
    let Ok(sites) = sites_of_stmt(alloc, caller.book, stmt) else {
        return Err(NoMemory);
    };
    let Ok(hit) = hits_sites(kept, caller, clear, sites.as_slice()) else {
        return Err(NoMemory);
    };
    Ok(hit)
}

/// Whether the statement at a point breaks rule 29, where those names are kept that the DOs before it keep, and some units are
/// known to smash none of them in COMMON.
pub(crate) fn breaks_do(
    alloc: Global,
    kept: &Kept,
    caller: &Caller,
    clear: &mut UnitSet,
    stmt: &Stmt,
) -> Result<bool, NoMemory>
    requires well { (d : Dialect) × IsWellFormedUnit d (unit_of caller.now) }
    requires kept { AreKept (unit_of caller.now) kept.now.at kept.now.guards.now }
    requires clear { AreClear (program_of caller.now) (unit_of caller.now) kept.now.guards.now
        kept.now.at clear.old }
    ensures broken { IfOk result (λ broken. broken ≡ breaks_do (program_of caller.now)
        (unit_of caller.now) kept.now.at stmt.now) }
    ensures clear { OnOk result (AreClear (program_of caller.now) (unit_of caller.now)
        kept.now.guards.now kept.now.at clear.new) }
{
    if uses_itself(stmt) {
        return Ok(true);
    }
    let Ok(hit) = hits_stmt(alloc, kept, caller, clear, stmt) else {
        return Err(NoMemory);
    };
    Ok(hit)
}

/// Whether a statement is a DO.
pub(crate) fn is_do(stmt: &Stmt) -> bool
    ensures { result ≡ is_do stmt.now }
{
    matches!(stmt, Stmt::Do(_, _, _, _, _))
}

/// Behind a DO more is kept, so that no unit is known any more to smash nothing of it.
pub(crate) fn forget(alloc: Global, keys: Keys, clear: &mut UnitSet, stmt: &Stmt)
    ensures { clear.new ≡ cond (is_do stmt.now) [] clear.old }
{
    if is_do(stmt) {
        *clear = UnitSet::new(alloc, keys);
    }
}
