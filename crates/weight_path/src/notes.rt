// The ASSERTs of the unit.
ghost use Rattle.std.specs.Prelude.{◌≡◌, length, map, option_copied, option_map, slice_get, true, IfSome};
ghost use Rattle.fort_notes.specs.Assertions.{assertion_tree};
ghost use Rattle.fort_model.specs.Program.{assertion_at};
ghost use Rattle.path_scene.specs.Scenes.{IsAssertIn};
ghost use Rattle.weight_calls.specs.Inside.{asserts_inside};
ghost use Rattle.weight_path.specs.Noted.{first_at, own_notes};

use fort_notes::{AssertSpec, UnitSpec};
use weight_calls::Subject;

/// The notes of the unit, where it has some.
fn spec<'a>(subject: &Subject<'a>) -> Option<&'a UnitSpec>
    ensures { option_copied result ≡ slice_get subject.now.scene.now.notes.now subject.now.number }
{
    subject.scene.notes.get(subject.number)
}

/// The ASSERTs of the unit in order.
fn asserts<'a>(subject: &Subject<'a>) -> &'a [AssertSpec]
    ensures asserts { map (assertion_tree subject.now.pool.now) result.now ≡ (own_notes subject.now).asserts }
    ensures inside { asserts_inside (length subject.now.pool.now) result.now ≡ true }
{
    match spec(subject) {
        Some(spec) => spec.asserts.as_slice(),
        None => &[],
    }
}

/// The first of some ASSERTs that stands before the statement of a number.
fn first_at(asserts: &[AssertSpec], point: usize) -> Option<&AssertSpec>
    ensures { option_copied result ≡ first_at asserts.now point }
{
    for assert in asserts {
        if assert.line as usize == point {
            return Some(assert);
        }
    }
    None
}

/// One of some ASSERTs, counted from 0.
fn nth(asserts: &[AssertSpec], number: usize) -> Option<&AssertSpec>
    ensures { option_copied result ≡ slice_get asserts.now number }
{
    asserts.get(number)
}

/// The ASSERT of the unit at a point, where one stands there.
pub(crate) fn assert_at<'a>(subject: &Subject<'a>, point: usize) -> Option<&'a AssertSpec>
    ensures tree { option_map (assertion_tree subject.now.pool.now) (option_copied result)
        ≡ assertion_at (own_notes subject.now) point }
    ensures inside { IfSome result (λ a. IsAssertIn (length subject.now.pool.now) a.now) }
{
    let all = asserts(subject);
    let Some(assert) = first_at(all, point) else {
        return None;
    };
    Some(assert)
}

/// The ASSERT of the unit of a number, counted from 0, where there is one.
pub fn assert_of<'a>(subject: &Subject<'a>, number: usize) -> Option<&'a AssertSpec>
    ensures tree { option_map (assertion_tree subject.now.pool.now) (option_copied result)
        ≡ slice_get (own_notes subject.now).asserts number }
    ensures inside { IfSome result (λ a. IsAssertIn (length subject.now.pool.now) a.now) }
{
    let all = asserts(subject);
    let Some(assert) = nth(all, number) else {
        return None;
    };
    Some(assert)
}
