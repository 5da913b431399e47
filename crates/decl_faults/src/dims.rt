// Dimensions.
ghost use Rattle.std.specs.Prelude.{◌≡◌, ◌≤◌, ◌*◌, nat_lt, false};
ghost use Rattle.std.specs.List.{list_any};
ghost use Rattle.decl_faults.specs.Sizes.{passes};
ghost use Rattle.fort_syntax.specs.NameRules.{most_dims, is_zero_dim, is_bad_shape, fixed_size};

use fort_syntax::{Dialect, Dim};

fn most_dims(dialect: Dialect) -> usize
    ensures { result ≡ most_dims dialect }
{
    match dialect {
        Dialect::Common => 3,
        Dialect::SeventySeven => 7,
    }
}

fn has_zero(dims: &[Dim]) -> bool
    ensures { result ≡ list_any is_zero_dim dims.now }
{
    for dim in dims {
        if let Dim::Fixed(0) = *dim {
            return true;
        }
    }
    false
}

fn passes(dims: &[Dim]) -> bool
    ensures { result ≡ passes 1 dims.now }
{
    let mut size = 1;
    for dim in dims {
        if let Dim::Fixed(n) = *dim {
            let more = size * u128::from(n);
            if more > 1_000_000 {
                return true;
            }
            size = more;
        }
    }
    false
}

/// Whether the product of the dimensions that are constants is over 1,000,000.
#[tactic(auto, using(crate::proofs::Shapes::passes_from_one))]
fn is_large(dims: &[Dim]) -> bool
    requires { list_any is_zero_dim dims.now ≡ false }
    ensures { result ≡ nat_lt 1000000 (fixed_size dims.now) }
{
    passes(dims)
}

/// Whether dimensions are too many, one of them is 0, or those that are constants give too many elements.
pub fn is_bad_shape(dialect: Dialect, dims: &[Dim]) -> bool
    ensures { result ≡ is_bad_shape dialect dims.now }
{
    dims.len() > most_dims(dialect) || has_zero(dims) || is_large(dims)
}
