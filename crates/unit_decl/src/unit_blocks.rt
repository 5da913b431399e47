// The COMMON blocks of a unit.
ghost use Rattle.std.specs.Prelude.{◌≡◌, [], map, IfOk, OnOk};
ghost use Rattle.fort_syntax.specs.Units.{gathered, scope_of, blocks_by, name_of_block, group_of};
ghost use Rattle.fort_syntax.specs.Scopes.{once};
ghost use Rattle.name_tables.specs.Sets.{with_names};
ghost use Rattle.decl_faults.specs.Commons.{given_from};
ghost use Rattle.unit_scope.specs.Scoping.{scope_by};
ghost use Rattle.unit_decl.specs.UnitParts.{item_in, group_in};

use crate::unit_names::copied_dims;
use decl_faults::{CommonTable, commons_of};
use edge_io::{Keys, List, NoMemory};
use fort_syntax::{Group, Item, Line, Name, Stmt};
use name_tables::{BlockSet, Key};
use std::alloc::Global;
use stmt_names::groups_by;
use unit_scope::Scoped;

fn items_of(alloc: Global, scope: &Scoped, names: &[Name]) -> Result<List<Item>, NoMemory>
    ensures { IfOk result (λ items. items ≡ map (item_in (scope_by scope.now)) names.now) }
{
    let mut all = Vec::new(alloc);
    for name in names {
        let Ok(dims) = copied_dims(alloc, scope.dims(name)) else {
            return Err(NoMemory);
        };
        if all.push(Item { name: *name, dims }).is_err() {
            return Err(NoMemory);
        }
    }
    Ok(List::from_vec(all))
}

#[tactic(auto, using(crate::proofs::UnitMade::block_again))]
fn group_of(
    alloc: Global,
    scope: &Scoped,
    table: &CommonTable,
    key: &Key,
) -> Result<Group, NoMemory>
    ensures { IfOk result (λ group. group ≡ group_in (scope_by scope.now) table.now key.now) }
{
    let block = key.block();
    let Ok(items) = items_of(alloc, scope, table.names(&block)) else {
        return Err(NoMemory);
    };
    Ok(Group { block, items })
}

fn groups_of(
    alloc: Global,
    scope: &Scoped,
    table: &CommonTable,
    keys: &[Key],
) -> Result<List<Group>, NoMemory>
    ensures { IfOk result (λ groups. groups ≡ map (group_in (scope_by scope.now) table.now) keys.now) }
{
    let mut all = Vec::new(alloc);
    for key in keys {
        let Ok(group) = group_of(alloc, scope, table, key) else {
            return Err(NoMemory);
        };
        if all.push(group).is_err() {
            return Err(NoMemory);
        }
    }
    Ok(List::from_vec(all))
}

fn add_groups(blocks: &mut BlockSet, groups: &[Group]) -> Result<(), NoMemory>
    ensures { OnOk result (blocks.new ≡ with_names blocks.old (map (λ g. name_of_block g.block) groups.now)) }
{
    for group in groups {
        let Ok(_) = blocks.add(&group.block) else {
            return Err(NoMemory);
        };
    }
    Ok(())
}

fn add_blocks(blocks: &mut BlockSet, stmt: &Stmt) -> Result<(), NoMemory>
    ensures { OnOk result (blocks.new ≡ with_names blocks.old (blocks_by stmt.now)) }
{
    add_groups(blocks, groups_by(stmt))
}

fn blocks_of(alloc: Global, keys: Keys, unit: &[Line]) -> Result<BlockSet, NoMemory>
    ensures { IfOk result (λ blocks. blocks ≡ given_from blocks_by [] unit.now) }
{
    let mut blocks = BlockSet::new(alloc, keys);
    for line in unit {
        let Ok(()) = add_blocks(&mut blocks, &line.stmt) else {
            return Err(NoMemory);
        };
    }
    Ok(blocks)
}

/// The COMMON blocks of a unit, each as all groups of the block joined, in order of first appearance.
pub(crate) fn unit_groups(
    alloc: Global,
    keys: Keys,
    scope: &Scoped,
    unit: &[Line],
) -> Result<List<Group>, NoMemory>
    requires { scope_by scope.now ≡ scope_of unit.now }
    ensures { IfOk result (λ groups. groups ≡ map (group_of unit.now) (once (gathered blocks_by unit.now))) }
{
    let Ok(table) = commons_of(alloc, keys, unit) else {
        return Err(NoMemory);
    };
    let Ok(blocks) = blocks_of(alloc, keys, unit) else {
        return Err(NoMemory);
    };
    let Ok(groups) = groups_of(alloc, scope, &table, blocks.keys()) else {
        return Err(NoMemory);
    };
    Ok(groups)
}
