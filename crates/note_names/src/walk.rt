// A walk through a term.
ghost use Rattle.std.specs.Prelude.{◌≡◌, length, map};
ghost use Rattle.std.specs.List.{list_all};
ghost use Rattle.formula.specs.Pool.{AllBelow, IsIn, tree_of, row_in, trees};
ghost use Rattle.formula.specs.TermTests.{row_names_pass};
ghost use Rattle.note_names.specs.NameTests.{now_passes, entry_passes, term_passes};

use crate::name_test::{entry_passes, symbol_passes};
use crate::{NameTest, Roles};
use formula::{Node, TermId, TermPool};

// Whether all names in a term pass a test.
#[cycle(term)]
pub(crate) fn passes(pool: &TermPool, test: NameTest, roles: &Roles, id: TermId) -> bool
    requires { IsIn pool.now id }
    ensures { result ≡ term_passes test roles.now (tree_of pool.now id) }
{
    match pool.node(id) {
        Node::Num(_) | Node::Truth(_) => true,
        Node::Symbol(name) => symbol_passes(test, roles, *name),
        Node::Old(name) => entry_passes(test, roles, *name),
        Node::Apply(_, args) => row_passes(pool, test, roles, args.as_slice()),
    }
}

// Whether all names in some arguments pass it.
#[cycle(term)]
fn row_passes(pool: &TermPool, test: NameTest, roles: &Roles, args: &[TermId]) -> bool
    requires { AllBelow (length pool.now) args.now }
    ensures { result ≡ row_names_pass (now_passes test roles.now) (entry_passes test roles.now)
        (row_in (trees pool.now) args.now) }
{
    for i in 0..args.len() {
        if !passes(pool, test, roles, args[i]) {
            return false;
        }
    }
    true
}

/// Whether all names in some terms pass a test, in time for the terms.
pub fn all_pass(pool: &TermPool, test: NameTest, roles: &Roles, ids: &[TermId]) -> bool
    requires { AllBelow (length pool.now) ids.now }
    ensures { result ≡ list_all (term_passes test roles.now) (map (tree_of pool.now) ids.now) }
{
    row_passes(pool, test, roles, ids)
}
