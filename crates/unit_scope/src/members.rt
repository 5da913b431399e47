// The members of COMMON blocks.
ghost use Rattle.std.specs.Prelude.{◌≡◌, map, IfOk};
ghost use Rattle.std.specs.List.{list_any};
ghost use Rattle.fort_syntax.specs.Scopes.{same_option, same_dim, same_dims};
ghost use Rattle.fort_syntax.specs.NameRules.{same_member, same_members, member_of, is_adjustable};
ghost use Rattle.unit_scope.specs.Scoping.{scope_by};

use crate::scoped::Scoped;
use edge_io::{List, NoMemory};
use fort_syntax::{Dim, Name, Sort};
use std::alloc::Global;
use std::marker::Model;

/// A name of a block with its type and its dimensions.
#[derive(Drop)]
pub struct Kept {
    name: Name,
    sort: Option<Sort>,
    dims: List<Dim>,
}

impl Model for Kept {
    ghost use Rattle.fort_syntax.specs.NameRules.{Member};

    ghost Value = { Member };

    ghost view = { λ m. record { name = m.name; sort = m.sort; dims = m.dims } };
}

/// Whether two names have the same type, or neither has one.
pub fn same_sorts(a: Option<Sort>, b: Option<Sort>) -> bool
    ensures { result ≡ same_option a b }
{
    match (a, b) {
        (None, None) => true,
        (Some(Sort::Integer), Some(Sort::Integer)) => true,
        (Some(Sort::Logical), Some(Sort::Logical)) => true,
        _ => false,
    }
}

fn is_same_dim(a: &Dim, b: &Dim) -> bool
    ensures { result ≡ same_dim a.now b.now }
{
    match (a, b) {
        (Dim::Fixed(m), Dim::Fixed(n)) => *m == *n,
        (Dim::Named(x), Dim::Named(y)) => *x == *y,
        _ => false,
    }
}

#[tactic(auto, using(crate::proofs::SameMembers::unlike_dims))]
fn are_same_dims(a: &[Dim], b: &[Dim]) -> bool
    ensures { result ≡ same_dims a.now b.now }
{
    if a.len() != b.len() {
        return false;
    }
    for i in 0..a.len() {
        if !is_same_dim(&a[i], &b[i]) {
            return false;
        }
    }
    true
}

fn copied_dims(alloc: Global, dims: &[Dim]) -> Result<List<Dim>, NoMemory>
    ensures { IfOk result (λ copy. copy ≡ dims.now) }
{
    let mut all = Vec::new(alloc);
    for dim in dims {
        if all.push(*dim).is_err() {
            return Err(NoMemory);
        }
    }
    Ok(List::from_vec(all))
}

impl Kept {
    fn new(alloc: Global, scope: &Scoped, name: Name) -> Result<Kept, NoMemory>
        ensures { IfOk result (λ kept. kept ≡ member_of (scope_by scope.now) name) }
    {
        let Ok(dims) = copied_dims(alloc, scope.dims(&name)) else {
            return Err(NoMemory);
        };
        Ok(Kept {
            name,
            sort: scope.sort(&name),
            dims,
        })
    }

    /// Whether a name of a unit is that member.
    fn is_member(&self, scope: &Scoped, name: &Name) -> bool
        ensures { result ≡ same_member (member_of (scope_by scope.now) name.now) self.now }
    {
        *name == self.name
            && same_sorts(scope.sort(name), self.sort)
            && are_same_dims(scope.dims(name), self.dims.as_slice())
    }
}

/// Names of a unit with their types and dimensions.
pub fn members_of(alloc: Global, scope: &Scoped, names: &[Name]) -> Result<List<Kept>, NoMemory>
    ensures { IfOk result (λ members. members ≡ map (member_of (scope_by scope.now)) names.now) }
{
    let mut all = Vec::new(alloc);
    for name in names {
        let Ok(member) = Kept::new(alloc, scope, *name) else {
            return Err(NoMemory);
        };
        if all.push(member).is_err() {
            return Err(NoMemory);
        }
    }
    Ok(List::from_vec(all))
}

/// Whether names of a unit are these members.
#[tactic(auto, using(crate::proofs::SameMembers::unlike_members))]
pub fn are_members(scope: &Scoped, names: &[Name], members: &[Kept]) -> bool
    ensures { result ≡ same_members (map (member_of (scope_by scope.now)) names.now) members.now }
{
    if names.len() != members.len() {
        return false;
    }
    for i in 0..names.len() {
        if !members[i].is_member(scope, &names[i]) {
            return false;
        }
    }
    true
}

fn is_adjustable(dims: &[Dim]) -> bool
    ensures { result ≡ is_adjustable dims.now }
{
    for dim in dims {
        if let Dim::Named(_) = dim {
            return true;
        }
    }
    false
}

/// Whether one of some names of a unit has a dimension that is a name.
pub fn has_adjustable(scope: &Scoped, names: &[Name]) -> bool
    ensures { result ≡ list_any (λ m. is_adjustable m.dims) (map (member_of (scope_by scope.now)) names.now) }
{
    for name in names {
        if is_adjustable(scope.dims(name)) {
            return true;
        }
    }
    false
}
