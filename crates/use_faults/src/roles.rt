// What names and labels of a unit are.
ghost use Rattle.std.specs.Prelude.{◌≡◌, ◌&&◌, ◌||◌, [], IfOk, OnOk};
ghost use Rattle.formula.specs.Atoms.{same_bytes};
ghost use Rattle.fort_syntax.specs.Scopes.{once};
ghost use Rattle.fort_syntax.specs.NameRules.{commons_by};
ghost use Rattle.fort_syntax.specs.Units.{gathered, names_in, names_used, own_name, references_in, references_of};
ghost use Rattle.fort_syntax.specs.Uses.{uses_of};
ghost use Rattle.fort_syntax.specs.UseRules.{is_assigned, assigns};
ghost use Rattle.name_tables.specs.Sets.{with_names};
ghost use Rattle.decl_faults.specs.Commons.{given_from};
ghost use Rattle.use_faults.specs.Roles.{use_facts_by};
ghost use Rattle.unit_scope.specs.Scoping.{scope_by};
ghost use Rattle.stmt_names.specs.Usings.{use_by};
ghost use Rattle.use_faults.specs.UseScans.{use_facts_of, lines_from, assigned_from};

use crate::use_rules::{Roles, is_own};
use crate::used::references_in;
use decl_faults::{commons_by, dummies_of};
use edge_io::{Keys, List, NoMemory};
use fort_syntax::{Class, Line, Name, Stmt};
use name_tables::{LabelSet, NameSet};
use std::alloc::Global;
use stmt_names::{How, Seen, is_function, items_by, names_of_stmt, own_name, uses_of};
use unit_scope::{Scoped, scope_of};

fn stmt_commons(alloc: Global, stmt: &Stmt) -> Result<List<Name>, NoMemory>
    ensures { IfOk result (λ names. names ≡ commons_by stmt.now) }
{
    let Ok(items) = items_by(alloc, stmt) else {
        return Err(NoMemory);
    };
    commons_by(alloc, stmt, items.as_slice())
}

fn commons_of(alloc: Global, keys: Keys, unit: &[Line]) -> Result<NameSet, NoMemory>
    ensures { IfOk result (λ names. names ≡ given_from commons_by [] unit.now) }
{
    let mut names = NameSet::new(alloc, keys);
    for line in unit {
        let Ok(given) = stmt_commons(alloc, &line.stmt) else {
            return Err(NoMemory);
        };
        let Ok(_) = names.add_all(given.as_slice()) else {
            return Err(NoMemory);
        };
    }
    Ok(names)
}

/// The names in the statements of a unit, those that are used as functions, and whether the unit's own name is assigned.
#[derive(Drop)]
struct Gathered {
    names: NameSet,
    references: NameSet,
    assigned: bool,
}

/// Adds the names that are used, but those of subroutines.
fn add_used(names: &mut NameSet, uses: &[Seen]) -> Result<(), NoMemory>
    ensures { OnOk result (names.new ≡ with_names names.old (names_used uses.now)) }
{
    for seen in uses {
        if !seen.is_called() {
            let Ok(_) = names.add(seen.name()) else {
                return Err(NoMemory);
            };
        }
    }
    Ok(())
}

/// Adds the names in an executable statement, which uses these.
fn gather_uses(
    alloc: Global,
    gathered: &mut Gathered,
    scope: &Scoped,
    own: &[u8],
    uses: &[Seen],
) -> Result<(), NoMemory>
    ensures names { OnOk result (gathered.new.names ≡ with_names gathered.old.names (names_used uses.now)) }
    ensures references { OnOk result (gathered.new.references ≡ with_names gathered.old.references
        (references_in (scope_by scope.now) uses.now)) }
    ensures assigned { OnOk result (gathered.new.assigned ≡ (gathered.old.assigned
        || assigns own.now uses.now)) }
{
    let Ok(()) = add_used(&mut gathered.names, uses) else {
        return Err(NoMemory);
    };
    let Ok(given) = references_in(alloc, scope, uses) else {
        return Err(NoMemory);
    };
    let Ok(_) = gathered.references.add_all(given.as_slice()) else {
        return Err(NoMemory);
    };
    gathered.assigned = gathered.assigned || assigns(own, uses);
    Ok(())
}

/// Adds the names in a declaration or a head.
fn gather_declared(alloc: Global, gathered: &mut Gathered, stmt: &Stmt) -> Result<(), NoMemory>
    ensures names { OnOk result (gathered.new.names ≡ with_names gathered.old.names (names_in stmt.now)) }
    ensures references { OnOk result (gathered.new.references ≡ gathered.old.references) }
    ensures assigned { OnOk result (gathered.new.assigned ≡ gathered.old.assigned) }
{
    let Ok(given) = names_of_stmt(alloc, stmt) else {
        return Err(NoMemory);
    };
    let Ok(_) = gathered.names.add_all(given.as_slice()) else {
        return Err(NoMemory);
    };
    Ok(())
}

/// Adds the names in an executable statement.
fn gather_performed(
    alloc: Global,
    gathered: &mut Gathered,
    scope: &Scoped,
    own: &[u8],
    stmt: &Stmt,
) -> Result<(), NoMemory>
    ensures names { OnOk result (gathered.new.names ≡ with_names gathered.old.names
        (names_used (uses_of stmt.now))) }
    ensures references { OnOk result (gathered.new.references ≡ with_names gathered.old.references
        (references_in (scope_by scope.now) (uses_of stmt.now))) }
    ensures assigned { OnOk result (gathered.new.assigned ≡ (gathered.old.assigned
        || assigns own.now (uses_of stmt.now))) }
{
    let Ok(uses) = uses_of(alloc, stmt) else {
        return Err(NoMemory);
    };
    let Ok(()) = gather_uses(alloc, gathered, scope, own, uses.as_slice()) else {
        return Err(NoMemory);
    };
    Ok(())
}

/// Adds the names in a statement.
fn gather_stmt(
    alloc: Global,
    gathered: &mut Gathered,
    scope: &Scoped,
    own: &[u8],
    stmt: &Stmt,
) -> Result<(), NoMemory>
    ensures names { OnOk result (gathered.new.names ≡ with_names gathered.old.names (names_in stmt.now)) }
    ensures references { OnOk result (gathered.new.references ≡ with_names gathered.old.references
        (references_in (scope_by scope.now) (uses_of stmt.now))) }
    ensures assigned { OnOk result (gathered.new.assigned ≡ (gathered.old.assigned
        || assigns own.now (uses_of stmt.now))) }
{
    match stmt {
        Stmt::Subroutine(_, _) => gather_declared(alloc, gathered, stmt),
        Stmt::Function(_, _, _) => gather_declared(alloc, gathered, stmt),
        Stmt::Declare(_, _) => gather_declared(alloc, gathered, stmt),
        Stmt::Dimension(_) => gather_declared(alloc, gathered, stmt),
        Stmt::Common(_) => gather_declared(alloc, gathered, stmt),
        _ => gather_performed(alloc, gathered, scope, own, stmt),
    }
}

/// The names in the statements of a unit, those that are used as functions, and whether the unit's own name is assigned.
fn gather(
    alloc: Global,
    gathered: &mut Gathered,
    scope: &Scoped,
    own: &[u8],
    unit: &[Line],
) -> Result<(), NoMemory>
    ensures names { OnOk result (gathered.new.names ≡ given_from names_in gathered.old.names unit.now) }
    ensures references { OnOk result (gathered.new.references ≡ given_from
        (λ s. references_in (scope_by scope.now) (uses_of s)) gathered.old.references unit.now) }
    ensures assigned { OnOk result (gathered.new.assigned ≡ (gathered.old.assigned
        || assigned_from own.now unit.now)) }
{
    for line in unit {
        let Ok(()) = gather_stmt(alloc, gathered, scope, own, &line.stmt) else {
            return Err(NoMemory);
        };
    }
    Ok(())
}

fn lines_of(alloc: Global, keys: Keys, unit: &[Line]) -> Result<LabelSet, NoMemory>
    ensures { IfOk result (λ labels. labels ≡ lines_from [] unit.now) }
{
    let mut labels = LabelSet::new(alloc, keys);
    for line in unit {
        if line.stmt.class() == Class::Performing {
            let Ok(()) = labels.add(line.label) else {
                return Err(NoMemory);
            };
        }
    }
    Ok(labels)
}

fn is_assigned(how: &How) -> bool
    ensures { result ≡ is_assigned (use_by how.now) }
{
    matches!(how, How::Assigned)
}

fn assigns_here(own: &[u8], seen: &Seen) -> bool
    ensures { result ≡ (same_bytes seen.now.name own.now && is_assigned seen.now.«use») }
{
    is_own(own, &seen.name()) && is_assigned(&seen.how())
}

fn assigns(own: &[u8], uses: &[Seen]) -> bool
    ensures { result ≡ assigns own.now uses.now }
{
    for seen in uses {
        if assigns_here(own, seen) {
            return true;
        }
    }
    false
}

/// What names and labels of a unit are.
pub fn roles_of(alloc: Global, keys: Keys, unit: &[Line]) -> Result<Roles, NoMemory>
    ensures facts { IfOk result (λ roles. use_facts_by roles (own_name unit.now) ≡ use_facts_of unit.now) }
    ensures names { IfOk result (λ roles. roles.names ≡ once (gathered names_in unit.now)) }
    ensures references { IfOk result (λ roles. roles.references ≡ references_of unit.now) }
{
    let Ok(scope) = scope_of(alloc, keys, unit) else {
        return Err(NoMemory);
    };
    let Ok(dummies) = dummies_of(alloc, keys, unit) else {
        return Err(NoMemory);
    };
    let Ok(commons) = commons_of(alloc, keys, unit) else {
        return Err(NoMemory);
    };
    let mut gathered = Gathered {
        names: NameSet::new(alloc, keys),
        references: NameSet::new(alloc, keys),
        assigned: false,
    };
    let Ok(()) = gather(alloc, &mut gathered, &scope, own_name(unit), unit) else {
        return Err(NoMemory);
    };
    let Ok(lines) = lines_of(alloc, keys, unit) else {
        return Err(NoMemory);
    };
    let function = is_function(unit);
    let Gathered {
        names,
        references,
        assigned,
    } = gathered;
    Ok(Roles {
        function,
        assigned,
        scope,
        dummies,
        commons,
        names,
        references,
        lines,
    })
}
