// Numbers of cells, or none where no machine has the number.
ghost use Rattle.std.specs.Prelude.{◌≡◌};
ghost use Rattle.run_start.specs.Counted.{plus_to, times_to, greater_to, above_zero};

/// A sum.
pub(crate) fn plus(a: Option<usize>, b: Option<usize>) -> Option<usize>
    ensures { result ≡ plus_to a b }
{
    let Some(a) = a else {
        return None;
    };
    let Some(b) = b else {
        return None;
    };
    a.checked_add(b)
}

/// Nothing, but 0 where a factor is 0.
fn none_but_zero(a: usize) -> Option<usize>
    ensures { result ≡ times_to (Some a) None }
{
    if a == 0 { Some(0) } else { None }
}

/// A product.
pub(crate) fn times(a: Option<usize>, b: Option<usize>) -> Option<usize>
    ensures { result ≡ times_to a b }
{
    match a {
        Some(x) => match b {
            Some(y) => x.checked_mul(y),
            None => none_but_zero(x),
        },
        None => match b {
            Some(y) => none_but_zero(y),
            None => None,
        },
    }
}

/// The greater of two.
pub(crate) fn greater(a: Option<usize>, b: Option<usize>) -> Option<usize>
    ensures { result ≡ greater_to a b }
{
    let Some(a) = a else {
        return None;
    };
    let Some(b) = b else {
        return None;
    };
    Some(a.max(b))
}

/// A number that is 1 at least.
pub(crate) fn above_zero(n: i128) -> Option<Option<usize>>
    ensures { result ≡ above_zero n }
{
    if n < 1 {
        return None;
    }
    if n > 18446744073709551615 {
        return Some(None);
    }
    Some(Some(n as usize))
}
