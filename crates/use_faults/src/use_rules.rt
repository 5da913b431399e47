// What executable statements may do.
ghost use Rattle.std.specs.Prelude.{◌≡◌, ◌&&◌, ◌||◌, [], not, true, IfOk, OnOk};
ghost use Rattle.std.specs.List.{list_any};
ghost use Rattle.formula.specs.Atoms.{same_bytes, is_among};
ghost use Rattle.fort_syntax.specs.Units.{is_called, is_reference};
ghost use Rattle.fort_syntax.specs.UseRules.{wants_plain_subscripts};
ghost use Rattle.fort_syntax.specs.TypeRules.{all_plain_subscripts};
ghost use Rattle.fort_syntax.specs.Uses.{uses_of};
ghost use Rattle.unit_scope.specs.Scoping.{scope_by};
ghost use Rattle.use_faults.specs.Roles.{is_data_by, use_facts_by};
ghost use Rattle.use_faults.specs.UseScans.{nothing_used, is_of_other_kind, is_bad_use, has_bad_use, used_with, first_use_rule, use_rule, use_scan};

use crate::used::{Used, has_label_in, is_misused, is_reference, lacks_label};
use edge_io::{Keys, NoMemory};
use fort_syntax::{Dialect, Fault, Line, Name, Rule};
use name_tables::{LabelSet, NameSet};
use std::alloc::Global;
use stmt_names::{Seen, uses_of};
use type_faults::all_plain_subscripts;
use unit_scope::Scoped;

/// What is known of a unit: whether it is a FUNCTION and its own name is assigned, what its declarations say
/// of names, its dummies, its COMMON entities, all names in it, those that are used as functions, and the
/// labels of its executable statements.
#[derive(Drop)]
pub struct Roles {
    /// Whether it is a FUNCTION.
    pub function: bool,
    /// Whether its own name is assigned.
    pub assigned: bool,
    /// What its declarations say of names.
    pub scope: Scoped,
    /// Its dummies.
    pub dummies: NameSet,
    /// The names that it puts into COMMON.
    pub commons: NameSet,
    /// The names in its statements but those of subroutines and blocks.
    pub names: NameSet,
    /// The names that it uses as functions.
    pub references: NameSet,
    /// The labels of its executable statements.
    pub lines: LabelSet,
}

/// Whether a name has the letters of a unit's own name.
pub fn is_own(own: &[u8], name: &Name) -> bool
    ensures { result ≡ same_bytes name.now own.now }
{
    name.as_bytes() == own
}

fn is_data(roles: &Roles, own: &[u8], name: &Name) -> bool
    ensures { result ≡ is_data_by roles.now own.now name.now }
{
    roles.names.has(name)
        && (roles.dummies.has(name)
            || roles.commons.has(name)
            || (roles.function && is_own(own, name))
            || !roles.references.has(name))
}

fn is_held_reference(roles: &Roles, seen: &Seen) -> bool
    ensures { result ≡ (is_reference (scope_by roles.now.scope) seen.now
        && (is_among seen.now.name roles.now.dummies || is_among seen.now.name roles.now.commons)) }
{
    is_reference(&roles.scope, seen)
        && (roles.dummies.has(&seen.name()) || roles.commons.has(&seen.name()))
}

fn is_called_data(roles: &Roles, own: &[u8], seen: &Seen) -> bool
    ensures { result ≡ (is_called seen.now.«use» && is_data_by roles.now own.now seen.now.name) }
{
    seen.is_called() && is_data(roles, own, &seen.name())
}

fn is_own_name_used(roles: &Roles, own: &[u8], seen: &Seen) -> bool
    ensures { result ≡ (not (is_called seen.now.«use») && not roles.now.function
        && same_bytes seen.now.name own.now) }
{
    !seen.is_called() && !roles.function && is_own(own, &seen.name())
}

fn is_of_other_kind(roles: &Roles, own: &[u8], seen: &Seen) -> bool
    ensures { result ≡ is_of_other_kind (use_facts_by roles.now own.now) seen.now }
{
    is_held_reference(roles, seen)
        || is_called_data(roles, own, seen)
        || is_own_name_used(roles, own, seen)
}

fn is_bad_use(roles: &Roles, own: &[u8], used: &Used, seen: &Seen) -> bool
    ensures { result ≡ is_bad_use (use_facts_by roles.now own.now) used.now seen.now }
{
    is_misused(&roles.scope, seen)
        || is_of_other_kind(roles, own, seen)
        || used.is_both(&seen.name())
}

fn has_bad_use(roles: &Roles, own: &[u8], used: &Used, uses: &[Seen]) -> bool
    ensures { result ≡ has_bad_use (use_facts_by roles.now own.now) used.now uses.now }
{
    for seen in uses {
        if is_bad_use(roles, own, used, seen) {
            return true;
        }
    }
    false
}

fn stmt_has_bad_use(
    alloc: Global,
    roles: &Roles,
    own: &[u8],
    used: &mut Used,
    line: &Line,
) -> Result<bool, NoMemory>
    ensures bad { IfOk result (λ bad. bad ≡ has_bad_use (use_facts_by roles.now own.now)
        (used_with (scope_by roles.now.scope) used.old (uses_of line.now.stmt) line.now.label)
        (uses_of line.now.stmt)) }
    ensures used { OnOk result (used.new ≡ used_with (scope_by roles.now.scope) used.old
        (uses_of line.now.stmt) line.now.label) }
{
    let Ok(uses) = uses_of(alloc, &line.stmt) else {
        return Err(NoMemory);
    };
    let Ok(()) = used.add(alloc, &roles.scope, uses.as_slice(), line.label) else {
        return Err(NoMemory);
    };
    Ok(has_bad_use(roles, own, used, uses.as_slice()))
}

fn wants_plain_subscripts(dialect: Dialect) -> bool
    ensures { result ≡ wants_plain_subscripts dialect }
{
    dialect == Dialect::Common
}

fn has_bad_subscript(dialect: Dialect, scope: &Scoped, line: &Line) -> bool
    ensures { result ≡ (wants_plain_subscripts dialect && not (all_plain_subscripts
        (scope_by scope.now) line.now.stmt)) }
{
    wants_plain_subscripts(dialect) && !all_plain_subscripts(scope, &line.stmt)
}

fn is_unset(roles: &Roles, first: bool) -> bool
    ensures { result ≡ (first && roles.now.function && not roles.now.assigned) }
{
    first && roles.function && !roles.assigned
}

fn first_use_rule(
    use_broken: bool,
    subscript: bool,
    twice: bool,
    missing: bool,
    unset: bool,
) -> Option<Rule>
    ensures { result ≡ first_use_rule use_broken subscript twice missing unset }
{
    if use_broken {
        Some(Rule::BadUse)
    } else if subscript {
        Some(Rule::BadSubscript)
    } else if twice {
        Some(Rule::LabelTwice)
    } else if missing {
        Some(Rule::NoLabel)
    } else if unset {
        Some(Rule::BadResult)
    } else {
        None
    }
}

/// The first of the rules on uses that a statement breaks.
fn use_rule(
    alloc: Global,
    dialect: Dialect,
    roles: &Roles,
    own: &[u8],
    first: bool,
    used: &mut Used,
    line: &Line,
) -> Result<Option<Rule>, NoMemory>
    ensures rule { IfOk result (λ rule. rule ≡ use_rule dialect (use_facts_by roles.now own.now)
        first used.old line.now) }
    ensures used { OnOk result (used.new ≡ used_with (use_facts_by roles.now own.now).scope used.old
        (uses_of line.now.stmt) line.now.label) }
{
    let twice = has_label_in(&used.labels, line.label);
    let Ok(bad) = stmt_has_bad_use(alloc, roles, own, used, line) else {
        return Err(NoMemory);
    };
    let subscript = has_bad_subscript(dialect, &roles.scope, line);
    let missing = lacks_label(&roles.lines, &line.stmt);
    let unset = is_unset(roles, first);
    Ok(first_use_rule(bad, subscript, twice, missing, unset))
}

/// The first fault of a unit by the rules on uses.
pub fn scan_uses(
    alloc: Global,
    keys: Keys,
    dialect: Dialect,
    roles: &Roles,
    own: &[u8],
    unit: &[Line],
) -> Result<Option<Fault>, NoMemory>
    ensures { IfOk result (λ fault. fault ≡ use_scan dialect (use_facts_by roles.now own.now)
        true nothing_used unit.now) }
{
    let mut used = Used::new(alloc, keys);
    let mut first = true;
    for line in unit {
        let Ok(rule) = use_rule(alloc, dialect, roles, own, first, &mut used, line) else {
            return Err(NoMemory);
        };
        if let Some(rule) = rule {
            return Ok(Some(Fault {
                rule,
                card: line.card,
            }));
        }
        first = false;
    }
    Ok(None)
}
