// Uses of names and of labels.
ghost use Rattle.std.specs.Prelude.{◌≡◌, ◌&&◌, ◌||◌, [], not, IfOk, OnOk};
ghost use Rattle.std.specs.List.{list_any};
ghost use Rattle.formula.specs.Atoms.{is_among};
ghost use Rattle.fort_syntax.specs.Scopes.{kept};
ghost use Rattle.fort_syntax.specs.Units.{is_applied, is_reference, references_in};
ghost use Rattle.fort_syntax.specs.Uses.{used_labels};
ghost use Rattle.fort_syntax.specs.UseRules.{is_misused, is_bare};
ghost use Rattle.name_tables.specs.Labels.{is_known};
ghost use Rattle.unit_scope.specs.Scoping.{scope_by};
ghost use Rattle.stmt_names.specs.Usings.{use_by};
ghost use Rattle.use_faults.specs.UseScans.{nothing_used, bares_in, used_with, is_both, has_label_in, lacks_label};

use edge_io::{Keys, List, NoMemory};
use fort_syntax::{Name, Stmt};
use name_tables::{LabelSet, NameSet};
use std::alloc::Global;
use stmt_names::{How, Seen, is_intrinsic_name, takes_so_many};
use unit_scope::Scoped;

/// The names that statements have used as functions and as scalars, and their labels.
#[derive(Drop)]
pub struct Used {
    /// The names that stand as functions.
    pub references: NameSet,
    /// The names that stand as scalars.
    pub bares: NameSet,
    /// The labels of the statements.
    pub labels: LabelSet,
}

fn is_misused_as(scope: &Scoped, name: &Name, how: &How) -> bool
    ensures { result ≡ is_misused (scope_by scope.now) name.now (use_by how.now) }
{
    match how {
        How::Read => scope.is_array(name),
        How::Assigned => scope.is_array(name),
        How::Counted => scope.is_array(name),
        How::Argument(f) => scope.is_array(name) && (scope.is_array(f) || is_intrinsic_name(f)),
        How::Actual => false,
        How::Element(n) => !(scope.is_array(name) && *n == scope.dims(name).len()),
        How::Applied(n) => {
            (scope.is_array(name) && *n != scope.dims(name).len())
                || (scope.is_intrinsic(name) && !takes_so_many(name, *n))
        }
        How::Called => false,
    }
}

/// Whether a name is used as what it is not, by its declarations.
pub fn is_misused(scope: &Scoped, seen: &Seen) -> bool
    ensures { result ≡ is_misused (scope_by scope.now) seen.now.name seen.now.«use» }
{
    is_misused_as(scope, &seen.name(), &seen.how())
}

fn is_applied(how: &How) -> bool
    ensures { result ≡ is_applied (use_by how.now) }
{
    matches!(how, How::Applied(_))
}

fn is_bare(how: &How) -> bool
    ensures { result ≡ is_bare (use_by how.now) }
{
    matches!(
        how,
        How::Read | How::Assigned | How::Counted | How::Argument(_) | How::Actual
    )
}

/// Whether a name is used as a function.
pub fn is_reference(scope: &Scoped, seen: &Seen) -> bool
    ensures { result ≡ is_reference (scope_by scope.now) seen.now }
{
    is_applied(&seen.how()) && !scope.is_array(&seen.name())
}

fn is_bare_use(seen: &Seen) -> bool
    ensures { result ≡ is_bare seen.now.«use» }
{
    is_bare(&seen.how())
}

/// The names that are used as functions.
pub(crate) fn references_in(
    alloc: Global,
    scope: &Scoped,
    uses: &[Seen],
) -> Result<List<Name>, NoMemory>
    ensures { IfOk result (λ names. names ≡ references_in (scope_by scope.now) uses.now) }
{
    let mut all = Vec::new(alloc);
    for seen in uses {
        if is_reference(scope, seen) && all.push(seen.name()).is_err() {
            return Err(NoMemory);
        }
    }
    Ok(List::from_vec(all))
}

/// The names that are used as scalars.
pub(crate) fn bares_in(alloc: Global, uses: &[Seen]) -> Result<List<Name>, NoMemory>
    ensures { IfOk result (λ names. names ≡ bares_in uses.now) }
{
    let mut all = Vec::new(alloc);
    for seen in uses {
        if is_bare_use(seen) && all.push(seen.name()).is_err() {
            return Err(NoMemory);
        }
    }
    Ok(List::from_vec(all))
}

impl Used {
    /// Before all statements.
    pub fn new(alloc: Global, keys: Keys) -> Used
        ensures { result ≡ nothing_used }
    {
        Used {
            references: NameSet::new(alloc, keys),
            bares: NameSet::new(alloc, keys),
            labels: LabelSet::new(alloc, keys),
        }
    }

    /// Adds the names in a statement, and its label.
    pub(crate) fn add(
        &mut self,
        alloc: Global,
        scope: &Scoped,
        uses: &[Seen],
        label: u32,
    ) -> Result<(), NoMemory>
        ensures { OnOk result (self.new ≡ used_with (scope_by scope.now) self.old uses.now label) }
    {
        let Ok(references) = references_in(alloc, scope, uses) else {
            return Err(NoMemory);
        };
        let Ok(bares) = bares_in(alloc, uses) else {
            return Err(NoMemory);
        };
        let Ok(_) = self.references.add_all(references.as_slice()) else {
            return Err(NoMemory);
        };
        let Ok(_) = self.bares.add_all(bares.as_slice()) else {
            return Err(NoMemory);
        };
        self.labels.add(label)
    }

    /// Whether a name has been used as a function and as a scalar.
    pub fn is_both(&self, name: &Name) -> bool
        ensures { result ≡ is_both self.now name.now }
    {
        self.references.has(name) && self.bares.has(name)
    }
}

/// Whether some labels have a label that is none of a set; 0 is none.
pub(crate) fn has_label_in(labels: &LabelSet, label: u32) -> bool
    ensures { result ≡ has_label_in labels.now label }
{
    label != 0 && labels.has(label)
}

fn lacks_some(lines: &LabelSet, labels: &[u32]) -> bool
    ensures { result ≡ lacks_label (has_label_in lines.now) labels.now }
{
    for label in labels {
        if !has_label_in(lines, *label) {
            return true;
        }
    }
    false
}

/// Whether a statement names a label that is not among those of some lines.
pub fn lacks_label(lines: &LabelSet, stmt: &Stmt) -> bool
    ensures { result ≡ lacks_label (has_label_in lines.now) (used_labels stmt.now) }
{
    match stmt {
        Stmt::GoTo(label) => lacks_some(lines, &[*label]),
        Stmt::Computed(labels, _) => lacks_some(lines, labels.as_slice()),
        Stmt::ArithIf(_, l, m, n) => lacks_some(lines, &[*l, *m, *n]),
        Stmt::LogicalIf(_, carried) => lacks_label(lines, carried.get()),
        Stmt::Do(label, ..) => lacks_some(lines, &[*label]),
        _ => false,
    }
}
