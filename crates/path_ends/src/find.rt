// The ASSERT at a point.
ghost use Rattle.std.specs.Prelude.{◌≡◌, option_copied};
ghost use Rattle.path_ends.specs.Ends.{first_at};

use fort_notes::AssertSpec;

/// The first of some ASSERTs that stands before the statement of a number.
pub(crate) fn assert_at<'a>(asserts: &'a [AssertSpec], point: usize) -> Option<&'a AssertSpec>
    ensures { option_copied result ≡ first_at asserts.now point }
{
    for assert in asserts {
        if assert.line as usize == point {
            return Some(assert);
        }
    }
    None
}
