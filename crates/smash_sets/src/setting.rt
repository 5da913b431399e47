// What a statement itself sets.
ghost use Rattle.std.specs.Prelude.{◌≡◌, OnOk};
ghost use Rattle.fort_model.specs.Smashes.{set_name, set_by};
ghost use Rattle.name_tables.specs.Sets.{with_names};

use crate::adding::add;
use edge_io::NoMemory;
use fort_syntax::{Expr, Stmt};
use name_tables::NameSet;

/// Adds the name that the left side of an assignment sets.
fn add_left(set: &mut NameSet, left: &Expr) -> Result<(), NoMemory>
    ensures { OnOk result (set.new ≡ with_names set.old (set_name left.now)) }
{
    match left {
        Expr::Var(x) => add(set, x),
        Expr::Apply(a, _) => add(set, a),
        _ => Ok(()),
    }
}

/// Adds what a statement sets: the name on the left side of an assignment, of a scalar or of an array, or the variable of a DO.
/// At `NoMemory` the set is as before.
pub fn add_set(set: &mut NameSet, stmt: &Stmt) -> Result<(), NoMemory>
    ensures { OnOk result (set.new ≡ with_names set.old (set_by stmt.now)) }
{
    match stmt {
        Stmt::Assign(left, _) => add_left(set, left),
        Stmt::Do(_, x, _, _, _) => add(set, x),
        Stmt::LogicalIf(_, carried) => add_set(set, carried.get()),
        _ => Ok(()),
    }
}
