// What declarations may say.
ghost use Rattle.std.specs.Prelude.{◌≡◌, [], ◌++◌, ◌||◌, not, ◌&&◌, IfOk, OnOk, map};
ghost use Rattle.std.specs.List.{list_any};
ghost use Rattle.formula.specs.Atoms.{is_among};
ghost use Rattle.fort_syntax.specs.Scopes.{is_integer_scalar};
ghost use Rattle.fort_syntax.specs.Units.{dummies_by, items_by, names_in, names_in_dims, name_of_block, blocks_by};
ghost use Rattle.name_tables.specs.Sets.{with_names};
ghost use Rattle.unit_scope.specs.Scoping.{scope_by};
ghost use Rattle.decl_faults.specs.Facts.{facts_by};
ghost use Rattle.decl_faults.specs.NameScans.{given_of, nothing_done, done_with, names_twice, has_untyped, has_bad_shape, has_new_bad, is_bad_item, first_rule, name_rule, name_scan};

use crate::common_table::CommonTable;
use crate::dims::is_bad_shape;
use crate::done::{Done, Given, given_by};
use edge_io::{Keys, NoMemory};
use fort_syntax::{Dialect, Dim, Fault, Group, Item, Line, Name, Rule, Stmt};
use name_tables::{BlockSet, NameSet};
use std::alloc::Global;
use stmt_names::{dummies_by, groups_by, items_by, names_of_stmt};
use unit_scope::Scoped;

/// What is known of a unit: what its declarations say of names, its dummies, its blocks, and which of them
/// differ from those of earlier units or have an adjustable dimension.
#[derive(Drop)]
pub(crate) struct Known {
    pub(crate) scope: Scoped,
    pub(crate) dummies: NameSet,
    pub(crate) commons: CommonTable,
    pub(crate) bad_blocks: BlockSet,
}

fn names_itself(own: &[u8], names: &[Name]) -> bool
    ensures { result ≡ is_among own.now names.now }
{
    for name in names {
        if own == name.as_bytes() {
            return true;
        }
    }
    false
}

fn meets(set: &NameSet, names: &[Name]) -> bool
    ensures { result ≡ list_any (λ x. is_among x set.now) names.now }
{
    for name in names {
        if set.has(name) {
            return true;
        }
    }
    false
}

#[tactic(auto, using(crate::proofs::Among::among_four))]
fn mentions_itself(own: &[u8], stmt: &Stmt, given: &Given) -> bool
    ensures { result ≡ is_among own.now (dummies_by stmt.now ++ given.now.typed ++
        given.now.dimensioned ++ given.now.commons) }
{
    names_itself(own, dummies_by(stmt))
        || names_itself(own, given.typed.as_slice())
        || names_itself(own, given.dimensioned.as_slice())
        || names_itself(own, given.commons.as_slice())
}

/// Whether a statement does to a name what it may not.
fn names_twice(
    known: &Known,
    own: &[u8],
    done: &mut Done,
    stmt: &Stmt,
    given: &Given,
) -> Result<bool, NoMemory>
    ensures twice { IfOk result (λ twice. twice ≡ names_twice (facts_by known.now own.now)
        done.old stmt.now given.now) }
    ensures after { OnOk result (done.new ≡ done_with done.old stmt.now given.now) }
{
    let Ok(twice) = done.does_twice(stmt, given) else {
        return Err(NoMemory);
    };
    let meets = meets(&known.dummies, given.commons.as_slice());
    let mentions = mentions_itself(own, stmt, given);
    Ok(twice || meets || mentions)
}

fn has_untyped(scope: &Scoped, names: &[Name]) -> bool
    ensures { result ≡ has_untyped (scope_by scope.now) names.now }
{
    for name in names {
        if scope.sort(name).is_none() {
            return true;
        }
    }
    false
}

fn has_bad_shape(dialect: Dialect, items: &[Item]) -> bool
    ensures { result ≡ has_bad_shape dialect items.now }
{
    for item in items {
        if is_bad_shape(dialect, item.dims.as_slice()) {
            return true;
        }
    }
    false
}

fn has_new_bad(bad: &BlockSet, blocks: &BlockSet, groups: &[Group]) -> bool
    ensures { result ≡ has_new_bad (λ b. is_among b bad.now) blocks.now
        (map (λ g. name_of_block g.block) groups.now) }
{
    for group in groups {
        if !blocks.has(&group.block) && bad.has(&group.block) {
            return true;
        }
    }
    false
}

fn add_blocks(blocks: &mut BlockSet, groups: &[Group]) -> Result<(), NoMemory>
    ensures { OnOk result (blocks.new ≡ with_names blocks.old (map (λ g. name_of_block g.block) groups.now)) }
{
    for group in groups {
        let Ok(_) = blocks.add(&group.block) else {
            return Err(NoMemory);
        };
    }
    Ok(())
}

fn has_bad_name(dummies: &NameSet, scope: &Scoped, is_dummy: bool, dims: &[Dim]) -> bool
    ensures { result ≡ list_any (λ x. not is_dummy || not (is_among x dummies.now
        && is_integer_scalar (scope_by scope.now) x)) (names_in_dims dims.now) }
{
    for dim in dims {
        if let Dim::Named(name) = dim {
            if !is_dummy || !(dummies.has(name) && scope.is_integer_scalar(name)) {
                return true;
            }
        }
    }
    false
}

fn has_bad_item(dummies: &NameSet, scope: &Scoped, items: &[Item]) -> bool
    ensures { result ≡ list_any (is_bad_item (λ x. is_among x dummies.now) (scope_by scope.now)) items.now }
{
    for item in items {
        if has_bad_name(
            dummies,
            scope,
            dummies.has(&item.name),
            item.dims.as_slice(),
        ) {
            return true;
        }
    }
    false
}

fn first_rule(
    twice: bool,
    untyped: bool,
    shape: bool,
    block: bool,
    adjustable: bool,
) -> Option<Rule>
    ensures { result ≡ first_rule twice untyped shape block adjustable }
{
    if twice {
        Some(Rule::NameTwice)
    } else if untyped {
        Some(Rule::ImplicitReal)
    } else if shape {
        Some(Rule::BadDimension)
    } else if block {
        Some(Rule::BlocksDiffer)
    } else if adjustable {
        Some(Rule::BadAdjustable)
    } else {
        None
    }
}

fn stmt_has_untyped(alloc: Global, scope: &Scoped, stmt: &Stmt) -> Result<bool, NoMemory>
    ensures { IfOk result (λ untyped. untyped ≡ has_untyped (scope_by scope.now) (names_in stmt.now)) }
{
    let Ok(names) = names_of_stmt(alloc, stmt) else {
        return Err(NoMemory);
    };
    Ok(has_untyped(scope, names.as_slice()))
}

fn stmt_is_twice(
    alloc: Global,
    known: &Known,
    own: &[u8],
    done: &mut Done,
    stmt: &Stmt,
    items: &[Item],
) -> Result<bool, NoMemory>
    requires { items.now ≡ items_by stmt.now }
    ensures twice { IfOk result (λ twice. twice ≡ names_twice (facts_by known.now own.now)
        done.old stmt.now (given_of stmt.now)) }
    ensures after { OnOk result (done.new ≡ done_with done.old stmt.now (given_of stmt.now)) }
{
    let Ok(given) = given_by(alloc, stmt, items) else {
        return Err(NoMemory);
    };
    names_twice(known, own, done, stmt, &given)
}

fn stmt_has_new_bad(bad: &BlockSet, blocks: &BlockSet, stmt: &Stmt) -> bool
    ensures { result ≡ has_new_bad (λ b. is_among b bad.now) blocks.now (blocks_by stmt.now) }
{
    has_new_bad(bad, blocks, groups_by(stmt))
}

fn stmt_add_blocks(blocks: &mut BlockSet, stmt: &Stmt) -> Result<(), NoMemory>
    ensures { OnOk result (blocks.new ≡ with_names blocks.old (blocks_by stmt.now)) }
{
    add_blocks(blocks, groups_by(stmt))
}

fn rule_with(
    alloc: Global,
    dialect: Dialect,
    known: &Known,
    own: &[u8],
    done: &mut Done,
    blocks: &BlockSet,
    stmt: &Stmt,
    items: &[Item],
) -> Result<Option<Rule>, NoMemory>
    requires { items.now ≡ items_by stmt.now }
    ensures rule { IfOk result (λ rule. rule ≡ name_rule dialect (facts_by known.now own.now)
        done.old blocks.now stmt.now) }
    ensures done { OnOk result (done.new ≡ done_with done.old stmt.now (given_of stmt.now)) }
{
    let Ok(twice) = stmt_is_twice(alloc, known, own, done, stmt, items) else {
        return Err(NoMemory);
    };
    let Ok(untyped) = stmt_has_untyped(alloc, &known.scope, stmt) else {
        return Err(NoMemory);
    };
    let shape = has_bad_shape(dialect, items);
    let block = stmt_has_new_bad(&known.bad_blocks, blocks, stmt);
    let adjustable = has_bad_item(&known.dummies, &known.scope, items);
    Ok(first_rule(twice, untyped, shape, block, adjustable))
}

/// The first of the rules on declarations that a statement breaks.
fn name_rule(
    alloc: Global,
    dialect: Dialect,
    known: &Known,
    own: &[u8],
    done: &mut Done,
    blocks: &mut BlockSet,
    stmt: &Stmt,
) -> Result<Option<Rule>, NoMemory>
    ensures rule { IfOk result (λ rule. rule ≡ name_rule dialect (facts_by known.now own.now)
        done.old blocks.old stmt.now) }
    ensures done { OnOk result (done.new ≡ done_with done.old stmt.now (given_of stmt.now)) }
    ensures blocks { OnOk result (blocks.new ≡ with_names blocks.old (blocks_by stmt.now)) }
{
    let Ok(items) = items_by(alloc, stmt) else {
        return Err(NoMemory);
    };
    let Ok(rule) = rule_with(
        alloc,
        dialect,
        known,
        own,
        done,
        blocks,
        stmt,
        items.as_slice(),
    ) else {
        return Err(NoMemory);
    };
    let Ok(()) = stmt_add_blocks(blocks, stmt) else {
        return Err(NoMemory);
    };
    Ok(rule)
}

/// The first fault of a unit by the rules on declarations.
pub(crate) fn scan_names(
    alloc: Global,
    keys: Keys,
    dialect: Dialect,
    known: &Known,
    unit: &[Line],
    own: &[u8],
) -> Result<Option<Fault>, NoMemory>
    ensures { IfOk result (λ fault. fault ≡ name_scan dialect (facts_by known.now own.now)
        nothing_done [] unit.now) }
{
    let mut done = Done::new(alloc, keys);
    let mut blocks = BlockSet::new(alloc, keys);
    for i in 0..unit.len() {
        let Ok(rule) = name_rule(
            alloc,
            dialect,
            known,
            own,
            &mut done,
            &mut blocks,
            &unit[i].stmt,
        ) else {
            return Err(NoMemory);
        };
        if let Some(rule) = rule {
            return Ok(Some(Fault {
                rule,
                card: unit[i].card,
            }));
        }
    }
    Ok(None)
}
