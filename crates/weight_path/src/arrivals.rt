// How a path ends.
ghost use Rattle.std.specs.Prelude.{◌≡◌, length, OnOk};
ghost use Rattle.fort_model.specs.Paths.{AtAssert, cut_at};
ghost use Rattle.fort_notes.specs.Assertions.{assertion_tree};
ghost use Rattle.path_scene.specs.Scenes.{IsAssertIn};
ghost use Rattle.weight_calls.specs.Subjects.{sight_of};
ghost use Rattle.weight_terms.specs.Held.{held};
ghost use Rattle.weight_tallies.specs.Tallies as tally;
ghost use Rattle.weight_path.specs.Noted.{fall_tested, own_notes};

use crate::notes::assert_at;
use crate::terms::{sum_own, test_own};
use edge_io::NoMemory;
use fort_notes::AssertSpec;
use weight_calls::Subject;
use weight_caps::{Load, plus};
use weight_terms::NameWeights;

/// Where the path started at an ASSERT, what the clock weighed there and what it weighs now is
/// tested.
fn test_fall(load: &mut Load, clock: Option<u32>, sum: u32)
    ensures { load.new ≡ fall_tested clock sum load.old }
{
    if let Some(past) = clock {
        load.test(plus(past, sum));
    }
}

/// A path arrives at an ASSERT.
fn arrive_at_assert(
    subject: &Subject,
    names: &NameWeights,
    load: &mut Load,
    clock: Option<u32>,
    assert: &AssertSpec,
) -> Result<(), NoMemory>
    requires { IsAssertIn (length subject.now.pool.now) assert.now }
    ensures { OnOk result (load.new ≡ (tally.arrive (sight_of subject.now) clock
        (AtAssert (assertion_tree subject.now.pool.now assert.now)) (held names.now)
        load.old).load) }
{
    let Ok(()) = test_own(subject, names, load, assert.terms.as_slice()) else {
        return Err(NoMemory);
    };
    let Ok(()) = test_own(subject, names, load, assert.clock.as_slice()) else {
        return Err(NoMemory);
    };
    let Ok(sum) = sum_own(subject, names, assert.clock.as_slice()) else {
        return Err(NoMemory);
    };
    test_fall(load, clock, sum);
    Ok(())
}

/// A path arrives at a point, where names weigh something; where it started at an ASSERT, what the
/// clock weighed there is told.
pub fn arrive(
    subject: &Subject,
    names: &NameWeights,
    load: &mut Load,
    clock: Option<u32>,
    end: usize,
) -> Result<(), NoMemory>
    ensures { OnOk result (load.new ≡ (tally.arrive (sight_of subject.now) clock
        (cut_at subject.now.book.now.unit.now (own_notes subject.now) end)
        (held names.now) load.old).load) }
{
    let lines = subject.book.unit.lines.as_slice();
    if end >= lines.len() {
        let output = subject.output(subject.number);
        let Ok(()) = test_own(subject, names, load, output) else {
            return Err(NoMemory);
        };
        return Ok(());
    }
    let Some(assert) = assert_at(subject, end) else {
        return Ok(());
    };
    let Ok(()) = arrive_at_assert(subject, names, load, clock, assert) else {
        return Err(NoMemory);
    };
    Ok(())
}
