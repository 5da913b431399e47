// The dimensions of the names of a unit.
ghost use Rattle.std.specs.Prelude.{◌≡◌, [], ◌∷◌, ◌++◌, length, map, IfOk, OnOk};
ghost use Rattle.fort_syntax.specs.Names.{dims_of};
ghost use Rattle.run_coding.specs.Scopes.{unit_of};
ghost use Rattle.run_sizes.specs.Sized.{AreSizesOf, dim_in};

use edge_io::NoMemory;
use fort_syntax::{Dim, Name};
use run_coding::Scope;
use run_shapes::{Amount, Shape};
use std::alloc::Global;

/// For each name where its dimensions stand among those of all, and these.
#[derive(Drop)]
pub struct Sizes {
    pub shapes: Vec<Shape>,
    pub sizes: Vec<Amount>,
}

fn dim(scope: &Scope, d: &Dim) -> Amount
    ensures { result ≡ dim_in scope.now.names.now d.now }
{
    match d {
        Dim::Fixed(n) => Amount::Fixed(*n),
        Dim::Named(x) => Amount::Named(scope.slot(x)),
    }
}

fn push_size(sizes: &mut Vec<Amount>, amount: Amount) -> Result<(), NoMemory>
    ensures { OnOk result (sizes.new.items ≡ sizes.old.items ++ amount ∷ []) }
{
    match sizes.push(amount) {
        Ok(()) => Ok(()),
        Err(_) => Err(NoMemory),
    }
}

fn push_shape(shapes: &mut Vec<Shape>, shape: Shape) -> Result<(), NoMemory>
    ensures { OnOk result (shapes.new.items ≡ shapes.old.items ++ shape ∷ []) }
{
    match shapes.push(shape) {
        Ok(()) => Ok(()),
        Err(_) => Err(NoMemory),
    }
}

fn push_dims(scope: &Scope, sizes: &mut Vec<Amount>, dims: &[Dim]) -> Result<(), NoMemory>
    ensures { OnOk result (sizes.new.items ≡ sizes.old.items ++ map (dim_in scope.now.names.now) dims.now) }
{
    for d in dims {
        push_size(sizes, dim(scope, d))?;
    }
    Ok(())
}

/// Adds the dimensions of a name.
fn push_name(scope: &Scope, all: &mut Sizes, name: &Name) -> Result<(), NoMemory>
    ensures shapes { OnOk result (all.new.shapes.items ≡ all.old.shapes.items ++
        record {
          first = length all.old.sizes.items;
          rank = length
              (dims_of (unit_of scope.now) name.now);
        } ∷ []) }
    ensures sizes { OnOk result (all.new.sizes.items ≡ all.old.sizes.items ++ map
        (dim_in scope.now.names.now) (dims_of (unit_of scope.now) name.now)) }
{
    let dims = scope.book.dims(name);
    let first = all.sizes.len();
    push_shape(
        &mut all.shapes,
        Shape {
            first,
            rank: dims.len(),
        },
    )?;
    push_dims(scope, &mut all.sizes, dims)
}

/// The dimensions of the names of a scope, in time for them.
pub fn sizes_of_names(alloc: Global, scope: &Scope) -> Result<Sizes, NoMemory>
    ensures { IfOk result (AreSizesOf (unit_of scope.now) scope.now.names.now) }
{
    let mut all = Sizes {
        shapes: Vec::new(alloc),
        sizes: Vec::new(alloc),
    };
    for name in scope.names {
        push_name(scope, &mut all, name)?;
    }
    Ok(all)
}
