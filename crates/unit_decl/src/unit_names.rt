// The data names and the functions of a unit.
ghost use Rattle.std.specs.Prelude.{◌≡◌, ◌&&◌, IfOk};
ghost use Rattle.formula.specs.Atoms.{same_bytes};
ghost use Rattle.fort_syntax.specs.Units.{sort_or_integer};
ghost use Rattle.unit_scope.specs.Scoping.{scope_by};
ghost use Rattle.unit_decl.specs.UnitParts.{is_held_in, is_data_in, role_in, data_name_in, data_names_in, function_name_in, functions_in, sort_in};

use edge_io::{List, NoMemory};
use fort_syntax::{DataName, Dim, FunctionName, Name, Role, Sort};
use std::alloc::Global;
use stmt_names::is_intrinsic_name;
use unit_scope::Scoped;
use use_faults::{Roles, is_own};

fn sort_or_integer(sort: Option<Sort>) -> Sort
    ensures { result ≡ sort_or_integer sort }
{
    match sort {
        None => Sort::Integer,
        Some(sort) => sort,
    }
}

fn is_own_value(roles: &Roles, own: &[u8], name: &Name) -> bool
    ensures { result ≡ (roles.now.function && same_bytes name.now own.now) }
{
    roles.function && is_own(own, name)
}

fn is_held(roles: &Roles, own: &[u8], name: &Name) -> bool
    ensures { result ≡ is_held_in roles.now own.now name.now }
{
    roles.dummies.has(name) || roles.commons.has(name) || is_own_value(roles, own, name)
}

fn is_data(roles: &Roles, own: &[u8], name: &Name) -> bool
    ensures { result ≡ is_data_in roles.now own.now name.now }
{
    is_held(roles, own, name) || !roles.references.has(name)
}

fn role(roles: &Roles, own: &[u8], name: &Name) -> Role
    ensures { result ≡ role_in roles.now own.now name.now }
{
    if roles.dummies.has(name) {
        Role::Dummy
    } else if roles.commons.has(name) {
        Role::InCommon
    } else if is_own_value(roles, own, name) {
        Role::OwnValue
    } else {
        Role::Local
    }
}

/// A copy of dimensions.
pub(crate) fn copied_dims(alloc: Global, dims: &[Dim]) -> Result<List<Dim>, NoMemory>
    ensures { IfOk result (λ copy. copy ≡ dims.now) }
{
    let mut all = Vec::new(alloc);
    for dim in dims {
        if all.push(*dim).is_err() {
            return Err(NoMemory);
        }
    }
    Ok(List::from_vec(all))
}

fn data_name(alloc: Global, roles: &Roles, own: &[u8], name: Name) -> Result<DataName, NoMemory>
    ensures { IfOk result (λ data_name. data_name ≡ data_name_in roles.now own.now name) }
{
    let Ok(dims) = copied_dims(alloc, roles.scope.dims(&name)) else {
        return Err(NoMemory);
    };
    Ok(DataName {
        name,
        sort: sort_or_integer(roles.scope.sort(&name)),
        dims,
        role: role(roles, own, &name),
    })
}

fn data_names_among(
    alloc: Global,
    roles: &Roles,
    own: &[u8],
    names: &[Name],
) -> Result<List<DataName>, NoMemory>
    ensures { IfOk result (λ made. made ≡ data_names_in roles.now own.now names.now) }
{
    let mut all = Vec::new(alloc);
    for name in names {
        if is_data(roles, own, name) {
            let Ok(made) = data_name(alloc, roles, own, *name) else {
                return Err(NoMemory);
            };
            if all.push(made).is_err() {
                return Err(NoMemory);
            }
        }
    }
    Ok(List::from_vec(all))
}

/// The data names of a unit.
pub(crate) fn data_names(
    alloc: Global,
    roles: &Roles,
    own: &[u8],
) -> Result<List<DataName>, NoMemory>
    ensures { IfOk result (λ names. names ≡ data_names_in roles.now own.now roles.now.names) }
{
    data_names_among(alloc, roles, own, roles.names.names())
}

fn function_name(scope: &Scoped, name: Name) -> FunctionName
    ensures { result ≡ function_name_in (scope_by scope.now) name }
{
    FunctionName {
        name,
        sort: sort_or_integer(scope.sort(&name)),
    }
}

/// The functions among some names, but for the intrinsic ones.
pub(crate) fn functions(
    alloc: Global,
    scope: &Scoped,
    names: &[Name],
) -> Result<List<FunctionName>, NoMemory>
    ensures { IfOk result (λ functions. functions ≡ functions_in (scope_by scope.now) names.now) }
{
    let mut all = Vec::new(alloc);
    for name in names {
        if !is_intrinsic_name(name) && all.push(function_name(scope, *name)).is_err() {
            return Err(NoMemory);
        }
    }
    Ok(List::from_vec(all))
}

/// The type of a FUNCTION.
pub(crate) fn function_sort(roles: &Roles, own: &Name) -> Option<Sort>
    ensures { result ≡ sort_in roles.now own.now }
{
    if roles.function {
        Some(sort_or_integer(roles.scope.sort(own)))
    } else {
        None
    }
}
