// What the declarations of a unit say of names.
ghost use Rattle.std.specs.Prelude.{◌≡◌, ◌+◌, [], ◌∷◌, IfOk, OnOk};
ghost use Rattle.fort_syntax.specs.Scopes.{is_array, is_intrinsic, is_integer_scalar};
ghost use Rattle.fort_syntax.specs.Units.{typings_by, scope_of};
ghost use Rattle.unit_scope.specs.Scoping.{scope_by};
ghost use Rattle.name_tables.specs.Tables.{all_told};
ghost use Rattle.unit_scope.specs.Tellings.{pairs_of, typed_items, typed_from, shaped, shaped_from};

use edge_io::{Keys, List, NoMemory};
use fort_syntax::{Dim, Item, Line, Name, Plain, Sort, Stmt};
use name_tables::Table;
use std::alloc::Global;
use stmt_names::{is_given, is_intrinsic_name, items_by, sort_by_letter};

/// The types and the dimensions that a unit gives names.
#[derive(Drop)]
pub struct Scoped {
    /// The types that names are given, the first for each.
    pub types: Table<Sort>,
    /// The dimensions that names are given, the first for each.
    pub shapes: Table<List<Dim>>,
}

impl Scoped {
    /// The type of a name: the one that it is given first, else the one that its first letter gives.
    pub fn sort(&self, name: &Name) -> Option<Sort>
        ensures { result ≡ (scope_by self.now).sort name.now }
    {
        match self.types.get(name) {
            Some(sort) => Some(*sort),
            None => sort_by_letter(name),
        }
    }

    /// The dimensions that a name is given first; none where it is no array.
    pub fn dims(&self, name: &Name) -> &[Dim]
        ensures { result.now ≡ (scope_by self.now).dims name.now }
    {
        match self.shapes.get(name) {
            Some(dims) => dims.as_slice(),
            None => &[],
        }
    }

    /// Whether a name is given dimensions.
    pub fn is_array(&self, name: &Name) -> bool
        ensures { result ≡ is_array (scope_by self.now) name.now }
    {
        is_given(self.dims(name))
    }

    /// Whether a name is that of an intrinsic function, and of no array.
    pub fn is_intrinsic(&self, name: &Name) -> bool
        ensures { result ≡ is_intrinsic (scope_by self.now) name.now }
    {
        is_intrinsic_name(name) && !self.is_array(name)
    }

    /// Whether a name is an integer, and no array.
    pub fn is_integer_scalar(&self, name: &Name) -> bool
        ensures { result ≡ is_integer_scalar (scope_by self.now) name.now }
    {
        match self.sort(name) {
            Some(Sort::Integer) => !self.is_array(name),
            _ => false,
        }
    }
}

fn tell_items(table: &mut Table<Sort>, sort: Sort, items: &[Item]) -> Result<(), NoMemory>
    ensures { OnOk result (table.new ≡ typed_items sort table.old items.now) }
{
    for item in items {
        let Ok(()) = table.tell(item.name, sort) else {
            return Err(NoMemory);
        };
    }
    Ok(())
}

/// Tells a table the types that a statement gives.
#[tactic(auto, using(crate::proofs::Scopings::items_typed))]
fn tell_types(table: &mut Table<Sort>, stmt: &Stmt) -> Result<(), NoMemory>
    ensures { OnOk result (table.new ≡ all_told table.old (pairs_of (typings_by stmt.now))) }
{
    match stmt {
        Stmt::Declare(sort, items) => tell_items(table, *sort, items.as_slice()),
        Stmt::Function(Some(sort), name, _) => table.tell(*name, *sort),
        _ => Ok(()),
    }
}

fn types_of(alloc: Global, keys: Keys, unit: &[Line]) -> Result<Table<Sort>, NoMemory>
    ensures { IfOk result (λ table. table ≡ typed_from [] unit.now) }
{
    let mut table = Table::new(alloc, keys);
    for line in unit {
        let Ok(()) = tell_types(&mut table, &line.stmt) else {
            return Err(NoMemory);
        };
    }
    Ok(table)
}

/// Tells a table the dimensions that items have.
fn tell_shapes(alloc: Global, table: &mut Table<List<Dim>>, items: &[Item]) -> Result<(), NoMemory>
    ensures { OnOk result (table.new ≡ shaped table.old items.now) }
{
    for item in items {
        if is_given(item.dims.as_slice()) {
            let Ok(dims) = item.dims.copied(alloc) else {
                return Err(NoMemory);
            };
            let Ok(()) = table.tell(item.name, dims) else {
                return Err(NoMemory);
            };
        }
    }
    Ok(())
}

fn shapes_of(alloc: Global, keys: Keys, unit: &[Line]) -> Result<Table<List<Dim>>, NoMemory>
    ensures { IfOk result (λ table. table ≡ shaped_from [] unit.now) }
{
    let mut table = Table::new(alloc, keys);
    for line in unit {
        let Ok(items) = items_by(alloc, &line.stmt) else {
            return Err(NoMemory);
        };
        let Ok(()) = tell_shapes(alloc, &mut table, items.as_slice()) else {
            return Err(NoMemory);
        };
    }
    Ok(table)
}

/// What the declarations of a unit say of names.
#[tactic(auto, using(crate::proofs::Scopings::scope_made))]
pub fn scope_of(alloc: Global, keys: Keys, unit: &[Line]) -> Result<Scoped, NoMemory>
    ensures { IfOk result (λ scope. scope_by scope ≡ scope_of unit.now) }
{
    let Ok(types) = types_of(alloc, keys, unit) else {
        return Err(NoMemory);
    };
    let Ok(shapes) = shapes_of(alloc, keys, unit) else {
        return Err(NoMemory);
    };
    Ok(Scoped { types, shapes })
}
