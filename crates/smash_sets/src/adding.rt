// Names added to a set.
ghost use Rattle.std.specs.Prelude.{◌≡◌, OnOk};
ghost use Rattle.name_tables.specs.Sets.{with_name};

use edge_io::NoMemory;
use fort_syntax::Name;
use name_tables::NameSet;

/// Adds a name to a set. At `NoMemory` the set is as before.
pub fn add(set: &mut NameSet, name: &Name) -> Result<(), NoMemory>
    ensures { OnOk result (set.new ≡ with_name set.old name.now) }
{
    let Ok(_) = set.add(*name) else {
        return Err(NoMemory);
    };
    Ok(())
}
