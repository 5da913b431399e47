// How a path begins.
ghost use Rattle.std.specs.Prelude.{◌≡◌, length, IfOk, OnOk};
ghost use Rattle.path_scene.specs.Scenes.{IsAssertIn};
ghost use Rattle.path_sizes.specs.Weights.{all_one};
ghost use Rattle.weight_calls.specs.Subjects.{sight_of};
ghost use Rattle.weight_caps.specs.Capped.{capped};
ghost use Rattle.weight_caps.specs.Loads.{with_added};
ghost use Rattle.weight_tallies.specs.Tallied as tallied;
ghost use Rattle.weight_tallies.specs.Tallies as tally;
ghost use Rattle.weight_path.specs.Noted.{assert_weight, own_weights};

use crate::terms::sum_own;
use edge_io::NoMemory;
use fort_notes::AssertSpec;
use fort_syntax::DataName;
use weight_calls::Subject;
use weight_caps::{CAP, Load, plus};
use weight_terms::NameWeights;

/// So many data names, as far as the cap.
fn count_of(names: &[DataName]) -> u32
    ensures { result ≡ capped (length names.now) }
{
    let count = names.len();
    if count < CAP as usize {
        return count as u32;
    }
    CAP
}

/// What each path begins with: 2, the number of the data names, and the terms of INPUT.
fn entry_weight(subject: &Subject) -> Result<u32, NoMemory>
    ensures { IfOk result (λ n. n ≡ tally.entry_weight (sight_of subject.now)) }
{
    let ones = NameWeights::new(subject.alloc, subject.keys);
    let input = subject.input(subject.number);
    let Ok(sum) = sum_own(subject, &ones, input) else {
        return Err(NoMemory);
    };
    let count = count_of(subject.book.unit.names.as_slice());
    let known = plus(2, count);
    Ok(plus(known, sum))
}

/// A path begins at the entry.
pub fn begin_at_entry(subject: &Subject, load: &mut Load) -> Result<(), NoMemory>
    ensures { OnOk result (load.new ≡ with_added load.old (tally.entry_weight (sight_of subject.now))) }
{
    let Ok(entry) = entry_weight(subject) else {
        return Err(NoMemory);
    };
    load.add(entry);
    Ok(())
}

/// A path begins at an ASSERT: its terms and its clock are added, too. It answers what the clock
/// weighs.
pub fn begin_at_assert(
    subject: &Subject,
    load: &mut Load,
    assert: &AssertSpec,
) -> Result<u32, NoMemory>
    requires { IsAssertIn (length subject.now.pool.now) assert.now }
    ensures load { OnOk result (load.new ≡ with_added load.old (assert_weight subject.now assert.now)) }
    ensures value { IfOk result (λ n. n ≡ tallied.all (own_weights subject.now all_one assert.now.clock)) }
{
    let Ok(entry) = entry_weight(subject) else {
        return Err(NoMemory);
    };
    let ones = NameWeights::new(subject.alloc, subject.keys);
    let Ok(terms) = sum_own(subject, &ones, assert.terms.as_slice()) else {
        return Err(NoMemory);
    };
    let Ok(clock) = sum_own(subject, &ones, assert.clock.as_slice()) else {
        return Err(NoMemory);
    };
    let known = plus(entry, terms);
    load.add(plus(known, clock));
    Ok(clock)
}
