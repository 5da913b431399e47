// Terms of the unit's own notes.
ghost use Rattle.std.specs.Prelude.{◌≡◌, length, IfOk, OnOk};
ghost use Rattle.formula.specs.Pool.{AllBelow};
ghost use Rattle.weight_caps.specs.Loads.{with_tests};
ghost use Rattle.weight_terms.specs.Held.{held};
ghost use Rattle.weight_tallies.specs.Tallied as tallied;
ghost use Rattle.weight_path.specs.Noted.{own_weights};

use edge_io::NoMemory;
use formula::TermId;
use weight_calls::Subject;
use weight_caps::Load;
use weight_terms::{NameWeights, Told, sum_terms, test_terms};

/// What terms of the unit's own notes weigh together: entry values weigh 1.
pub(crate) fn sum_own(
    subject: &Subject,
    names: &NameWeights,
    ids: &[TermId],
) -> Result<u32, NoMemory>
    requires { AllBelow (length subject.now.pool.now) ids.now }
    ensures { IfOk result (λ n. n ≡ tallied.all (own_weights subject.now (held names.now) ids.now)) }
{
    let ones = NameWeights::new(subject.alloc, subject.keys);
    let told = Told {
        before: &ones,
        behind: names,
    };
    let Ok(sum) = sum_terms(subject.alloc, subject.pool, &told, ids) else {
        return Err(NoMemory);
    };
    Ok(sum)
}

/// Each of some terms of the unit's own notes is tested, in order: entry values weigh 1.
pub(crate) fn test_own(
    subject: &Subject,
    names: &NameWeights,
    load: &mut Load,
    ids: &[TermId],
) -> Result<(), NoMemory>
    requires { AllBelow (length subject.now.pool.now) ids.now }
    ensures { OnOk result (load.new ≡ with_tests load.old (own_weights subject.now
        (held names.now) ids.now)) }
{
    let ones = NameWeights::new(subject.alloc, subject.keys);
    let told = Told {
        before: &ones,
        behind: names,
    };
    let Ok(()) = test_terms(subject.alloc, subject.pool, &told, ids, load) else {
        return Err(NoMemory);
    };
    Ok(())
}
