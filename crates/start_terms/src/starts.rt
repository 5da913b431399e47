// Names where a path starts at an ASSERT.
ghost use Rattle.std.specs.Prelude.{◌≡◌, OnOk};
ghost use Rattle.formula.specs.Pool.{Grows};
ghost use Rattle.walk_names.specs.Names.{IsNames};
ghost use Rattle.start_terms.specs.Starts.{IsStarted};

use edge_io::NoMemory;
use formula::TermPool;
use fort_syntax::Name;
use std::alloc::Global;
use walk_names::Names;
use walk_terms::start_symbol;

/// Some names stand for symbols of their own from now on: X-AT for a name X. The others stand for
/// what they stood for. At `NoMemory` some of them may stand for these symbols already.
pub fn start_names(
    alloc: Global,
    pool: &mut TermPool,
    names: &mut Names,
    smashed: &[Name],
) -> Result<(), NoMemory>
    requires { IsNames pool.old names.old }
    ensures grows { Grows pool.old pool.new }
    ensures started { OnOk result (IsStarted pool.old names.old pool.new names.new smashed.now) }
{
    for name in smashed {
        let id = start_symbol(alloc, pool, name)?;
        names.set(alloc, pool, name, id)?;
    }
    Ok(())
}
