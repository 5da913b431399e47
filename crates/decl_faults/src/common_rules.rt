// COMMON blocks that differ from those of earlier units.
ghost use Rattle.std.specs.Prelude.{◌≡◌, [], ◌&&◌, not, cond, map, IfOk, OnOk};
ghost use Rattle.formula.specs.Atoms.{is_among};
ghost use Rattle.fort_syntax.specs.Units.{dummies_by, blocks_by, name_of_block, own_name};
ghost use Rattle.fort_syntax.specs.NameRules.{member_of, members};
ghost use Rattle.name_tables.specs.Sets.{with_name, with_names};
ghost use Rattle.name_tables.specs.Tables.{first_of, told};
ghost use Rattle.unit_scope.specs.Scoping.{scope_by};
ghost use Rattle.decl_faults.specs.Facts.{facts_by, members_by};
ghost use Rattle.decl_faults.specs.Commons.{differs, is_bad_with, is_bad_by, bad_in, bad_from, given_from, remembered, remembered_from, facts_with};

use crate::common_table::{CommonTable, commons_of};
use crate::name_rules::Known;
use edge_io::{Keys, List, NoMemory};
use fort_syntax::{BlockName, Group, Line, Name};
use name_tables::{BlockSet, NameSet, Table};
use std::alloc::Global;
use stmt_names::{dummies_by, groups_by};
use unit_scope::{Kept, Scoped, are_members, has_adjustable, members_of, scope_of};

fn differs(earlier: &Table<List<Kept>>, scope: &Scoped, names: &[Name], block: &BlockName) -> bool
    ensures { result ≡ differs (first_of earlier.now (name_of_block block.now))
        (map (member_of (scope_by scope.now)) names.now) }
{
    match earlier.get_block(block) {
        None => false,
        Some(kept) => !are_members(scope, names, kept.as_slice()),
    }
}

fn is_bad(earlier: &Table<List<Kept>>, scope: &Scoped, names: &[Name], block: &BlockName) -> bool
    ensures { result ≡ is_bad_with earlier.now (map (member_of (scope_by scope.now)) names.now)
        (name_of_block block.now) }
{
    differs(earlier, scope, names, block) || has_adjustable(scope, names)
}

fn is_bad_block(
    earlier: &Table<List<Kept>>,
    scope: &Scoped,
    table: &CommonTable,
    block: &BlockName,
) -> bool
    ensures { result ≡ is_bad_by earlier.now (scope_by scope.now) table.now (name_of_block block.now) }
{
    is_bad(earlier, scope, table.names(block), block)
}

/// Adds a block to those that were seen, and to the bad ones where it is new and bad.
fn mark(
    earlier: &Table<List<Kept>>,
    scope: &Scoped,
    table: &CommonTable,
    seen: &mut BlockSet,
    bad: &mut BlockSet,
    block: &BlockName,
) -> Result<(), NoMemory>
    ensures seen { OnOk result (seen.new ≡ with_name seen.old (name_of_block block.now)) }
    ensures bad { OnOk result (bad.new ≡ cond (not (is_among (name_of_block block.now) seen.old)
        && is_bad_by earlier.now (scope_by scope.now) table.now (name_of_block block.now))
        (with_name bad.old (name_of_block block.now)) bad.old) }
{
    let Ok(new) = seen.add(block) else {
        return Err(NoMemory);
    };
    if new && is_bad_block(earlier, scope, table, block) {
        let Ok(_) = bad.add(block) else {
            return Err(NoMemory);
        };
    }
    Ok(())
}

fn mark_groups(
    earlier: &Table<List<Kept>>,
    scope: &Scoped,
    table: &CommonTable,
    seen: &mut BlockSet,
    bad: &mut BlockSet,
    groups: &[Group],
) -> Result<(), NoMemory>
    ensures seen { OnOk result (seen.new ≡ with_names seen.old
        (map (λ g. name_of_block g.block) groups.now)) }
    ensures bad { OnOk result (bad.new ≡ bad_in (is_bad_by earlier.now (scope_by scope.now)
        table.now) seen.old bad.old (map (λ g. name_of_block g.block) groups.now)) }
{
    for group in groups {
        let Ok(()) = mark(earlier, scope, table, seen, bad, &group.block) else {
            return Err(NoMemory);
        };
    }
    Ok(())
}

fn mark_stmt(
    earlier: &Table<List<Kept>>,
    scope: &Scoped,
    table: &CommonTable,
    seen: &mut BlockSet,
    bad: &mut BlockSet,
    line: &Line,
) -> Result<(), NoMemory>
    ensures seen { OnOk result (seen.new ≡ with_names seen.old (blocks_by line.now.stmt)) }
    ensures bad { OnOk result (bad.new ≡ bad_in (is_bad_by earlier.now (scope_by scope.now)
        table.now) seen.old bad.old (blocks_by line.now.stmt)) }
{
    mark_groups(earlier, scope, table, seen, bad, groups_by(&line.stmt))
}

fn bad_blocks(
    alloc: Global,
    keys: Keys,
    earlier: &Table<List<Kept>>,
    scope: &Scoped,
    table: &CommonTable,
    unit: &[Line],
) -> Result<BlockSet, NoMemory>
    ensures { IfOk result (λ bad. bad ≡ bad_from (is_bad_by earlier.now (scope_by scope.now)
        table.now) [] [] unit.now) }
{
    let mut seen = BlockSet::new(alloc, keys);
    let mut bad = BlockSet::new(alloc, keys);
    for line in unit {
        let Ok(()) = mark_stmt(earlier, scope, table, &mut seen, &mut bad, line) else {
            return Err(NoMemory);
        };
    }
    Ok(bad)
}

/// The dummies of a unit.
pub fn dummies_of(alloc: Global, keys: Keys, unit: &[Line]) -> Result<NameSet, NoMemory>
    ensures { IfOk result (λ names. names ≡ given_from dummies_by [] unit.now) }
{
    let mut names = NameSet::new(alloc, keys);
    for line in unit {
        let Ok(_) = names.add_all(dummies_by(&line.stmt)) else {
            return Err(NoMemory);
        };
    }
    Ok(names)
}

/// What is known of a unit, by what is kept of the blocks of the units before it.
pub(crate) fn known_of(
    alloc: Global,
    keys: Keys,
    earlier: &Table<List<Kept>>,
    unit: &[Line],
) -> Result<Known, NoMemory>
    ensures facts { IfOk result (λ known. facts_by known (own_name unit.now)
        ≡ facts_with earlier.now unit.now) }
    ensures members { IfOk result (λ known. members_by known ≡ members unit.now) }
{
    let Ok(scope) = scope_of(alloc, keys, unit) else {
        return Err(NoMemory);
    };
    let Ok(dummies) = dummies_of(alloc, keys, unit) else {
        return Err(NoMemory);
    };
    let Ok(commons) = commons_of(alloc, keys, unit) else {
        return Err(NoMemory);
    };
    let Ok(bad_blocks) = bad_blocks(alloc, keys, earlier, &scope, &commons, unit) else {
        return Err(NoMemory);
    };
    Ok(Known {
        scope,
        dummies,
        commons,
        bad_blocks,
    })
}

/// Keeps a block of a unit, where no earlier unit has one of its name.
fn remember(
    alloc: Global,
    earlier: &mut Table<List<Kept>>,
    known: &Known,
    block: &BlockName,
) -> Result<(), NoMemory>
    ensures { OnOk result (earlier.new ≡ told earlier.old (name_of_block block.now)
        (members_by known.now (name_of_block block.now))) }
{
    if earlier.get_block(block).is_some() {
        return Ok(());
    }
    let Ok(members) = members_of(alloc, &known.scope, known.commons.names(block)) else {
        return Err(NoMemory);
    };
    earlier.tell_block(block, members)
}

fn remember_groups(
    alloc: Global,
    earlier: &mut Table<List<Kept>>,
    known: &Known,
    groups: &[Group],
) -> Result<(), NoMemory>
    ensures { OnOk result (earlier.new ≡ remembered (members_by known.now) earlier.old
        (map (λ g. name_of_block g.block) groups.now)) }
{
    for group in groups {
        let Ok(()) = remember(alloc, earlier, known, &group.block) else {
            return Err(NoMemory);
        };
    }
    Ok(())
}

fn remember_stmt(
    alloc: Global,
    earlier: &mut Table<List<Kept>>,
    known: &Known,
    line: &Line,
) -> Result<(), NoMemory>
    ensures { OnOk result (earlier.new ≡ remembered (members_by known.now) earlier.old
        (blocks_by line.now.stmt)) }
{
    remember_groups(alloc, earlier, known, groups_by(&line.stmt))
}

/// Keeps the blocks of a unit that no earlier unit has.
pub(crate) fn remember_unit(
    alloc: Global,
    earlier: &mut Table<List<Kept>>,
    known: &Known,
    unit: &[Line],
) -> Result<(), NoMemory>
    ensures { OnOk result (earlier.new ≡ remembered_from (members_by known.now) earlier.old unit.now) }
{
    for line in unit {
        let Ok(()) = remember_stmt(alloc, earlier, known, line) else {
            return Err(NoMemory);
        };
    }
    Ok(())
}
