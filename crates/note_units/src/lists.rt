// Lists that grow.
ghost use Rattle.std.specs.Prelude.{◌≡◌, ◌++◌, ◌∷◌, [], OnOk};

use edge_io::{List, NoMemory};
use fort_notes::AssertSpec;
use formula::TermId;
use std::alloc::Global;
use std::mem::replace;

// Puts terms behind others.
pub(crate) fn add_terms(
    alloc: Global,
    terms: &mut List<TermId>,
    more: List<TermId>,
) -> Result<(), NoMemory>
    ensures { OnOk result (terms.new ≡ terms.old ++ more) }
{
    let old = replace(terms, List::from_vec(Vec::new(alloc)));
    let mut all = old.into_vec();
    let mut behind = more.into_vec();
    let Ok(()) = all.append(&mut behind) else {
        return Err(NoMemory);
    };
    *terms = List::from_vec(all);
    Ok(())
}

// Puts an ASSERT behind others.
pub(crate) fn add_assert(
    alloc: Global,
    asserts: &mut List<AssertSpec>,
    assert: AssertSpec,
) -> Result<(), NoMemory>
    ensures { OnOk result (asserts.new ≡ asserts.old ++ assert ∷ []) }
{
    let old = replace(asserts, List::from_vec(Vec::new(alloc)));
    let mut all = old.into_vec();
    let Ok(()) = all.push(assert) else {
        return Err(NoMemory);
    };
    *asserts = List::from_vec(all);
    Ok(())
}
