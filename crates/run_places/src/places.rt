// Where an element is in its array. What no memory has is the greatest number.
ghost use Rattle.std.specs.Prelude.{◌≡◌, ℤ, pos, Option};
ghost use Rattle.formula.specs.Values.{count, is_between};
ghost use Rattle.run_places.specs.Arrays.{first_place, next_to};

/// How many elements stand before one, by the subscripts so far, and how many there are for one
/// step of the next subscript.
#[derive(Clone, Copy, Debug)]
pub struct Place {
    pub offset: usize,
    pub stretch: usize,
}

/// The place before any subscript.
pub fn first_place() -> Place
    ensures { result ≡ first_place }
{
    Place {
        offset: 0,
        stretch: 1,
    }
}

/// Whether a subscript is from 1 to its dimension.
fn is_within(subscript: i64, dim: usize) -> bool
    ensures { result ≡ is_between (pos 1) (pos dim) subscript }
{
    1 <= subscript && i128::from(subscript) <= dim as i128
}

/// What a number counts; a negative one counts nothing.
pub fn counted(number: i64) -> usize
    ensures { result ≡ count number }
{
    if number < 0 { 0 } else { number as usize }
}

/// The place behind one more subscript, by its dimension.
pub fn next(place: Place, subscript: i64, dim: usize) -> Option<Place>
    ensures { result ≡ next_to place subscript dim }
{
    if !is_within(subscript, dim) {
        return None;
    }
    let steps = counted(subscript).saturating_sub(1);
    let offset = place
        .offset
        .saturating_add(place.stretch.saturating_mul(steps));
    let stretch = place.stretch.saturating_mul(dim);
    Some(Place { offset, stretch })
}
