// The symbols of conditions.
ghost use Rattle.std.specs.Prelude.{◌≡◌, IfOk};
ghost use Rattle.formula.specs.Pool.{Grows, IsIn, tree_of};
ghost use Rattle.formula.specs.Tree.{symbol};
ghost use Rattle.fort_model.specs.Symbols.{AtEntry, AtStart, ByCall, word_of};

use crate::words::{call_word, entry_word, start_word};
use edge_io::NoMemory;
use formula::{TermId, TermPool};
use fort_syntax::Name;
use std::alloc::Global;

/// The symbol X-IN of a name X: its value at the entry.
pub fn entry_symbol(alloc: Global, pool: &mut TermPool, name: &Name) -> Result<TermId, NoMemory>
    ensures grows { Grows pool.old pool.new }
    ensures is_in { IfOk result (λ id. IsIn pool.new id) }
    ensures tree { IfOk result (λ id. tree_of pool.new id ≡ symbol (word_of (AtEntry name.now))) }
{
    let word = entry_word(alloc, name)?;
    pool.symbol(word)
}

/// The symbol X-AT of a name X: its value where a path starts at an ASSERT.
pub fn start_symbol(alloc: Global, pool: &mut TermPool, name: &Name) -> Result<TermId, NoMemory>
    ensures grows { Grows pool.old pool.new }
    ensures is_in { IfOk result (λ id. IsIn pool.new id) }
    ensures tree { IfOk result (λ id. tree_of pool.new id ≡ symbol (word_of (AtStart name.now))) }
{
    let word = start_word(alloc, name)?;
    pool.symbol(word)
}

/// The symbol X-k of a name X: what the k-th call on a path gives for it.
pub fn call_symbol(
    alloc: Global,
    pool: &mut TermPool,
    name: &Name,
    number: u32,
) -> Result<TermId, NoMemory>
    ensures grows { Grows pool.old pool.new }
    ensures is_in { IfOk result (λ id. IsIn pool.new id) }
    ensures tree { IfOk result (λ id. tree_of pool.new id ≡ symbol (word_of (ByCall name.now number))) }
{
    let word = call_word(alloc, name, number)?;
    pool.symbol(word)
}
