// Terms of notes, one after another.
ghost use Rattle.std.specs.Prelude.{◌≡◌, length, sum, IfOk, OnOk};
ghost use Rattle.formula.specs.Pool.{AllBelow};
ghost use Rattle.weight_caps.specs.Capped.{capped};
ghost use Rattle.weight_caps.specs.Loads.{with_tests};
ghost use Rattle.weight_terms.specs.Held.{held};
ghost use Rattle.weight_terms.specs.Terms.{weights_told};

use crate::names::Told;
use crate::terms::term_weight;
use edge_io::NoMemory;
use formula::{TermId, TermPool};
use std::alloc::Global;
use weight_caps::{Load, plus};

/// Each of some terms is tested, in order.
pub fn test_terms(
    alloc: Global,
    pool: &TermPool,
    told: &Told,
    ids: &[TermId],
    load: &mut Load,
) -> Result<(), NoMemory>
    requires { AllBelow (length pool.now) ids.now }
    ensures { OnOk result (load.new ≡ with_tests load.old (weights_told pool.now
        (held told.now.before.now) (held told.now.behind.now) ids.now)) }
{
    for id in ids {
        let Ok(weight) = term_weight(alloc, pool, told, *id) else {
            return Err(NoMemory);
        };
        load.test(weight);
    }
    Ok(())
}

/// What some terms weigh together.
pub fn sum_terms(
    alloc: Global,
    pool: &TermPool,
    told: &Told,
    ids: &[TermId],
) -> Result<u32, NoMemory>
    requires { AllBelow (length pool.now) ids.now }
    ensures { IfOk result (λ n. n ≡ capped (sum (weights_told pool.now (held told.now.before.now)
        (held told.now.behind.now) ids.now))) }
{
    let mut all: u32 = 0;
    for id in ids {
        let Ok(weight) = term_weight(alloc, pool, told, *id) else {
            return Err(NoMemory);
        };
        all = plus(all, weight);
    }
    Ok(all)
}
