// Tests of the names in a term.
ghost use Rattle.std.specs.Prelude.{◌≡◌};
ghost use Rattle.formula.specs.Substitution.{is_bound};
ghost use Rattle.fort_syntax.specs.Names.{is_own, is_local};
ghost use Rattle.note_names.specs.NameTests.{now_passes, entry_passes, role_passes, role_in};
ghost use Rattle.fort_notes.specs.Judging.{any_role};

use crate::Roles;
use formula::{Word, is_same};
use fort_syntax::Role;

/// A test of all names in a term.
#[derive(Clone, Copy, Debug, PartialEq, Eq)]
pub enum NameTest {
    /// No entry value stands in the term.
    NoOld,
    /// No entry value of a local or of a function's own value stands in the term.
    GoodOld,
    /// Each name is a bound or a data name, and under OLD a data name.
    KnownNames,
    /// No name is a local or a function's own value.
    NoOwn,
    /// No name is a local.
    NoLocal,
}

// LEAST and GREATEST.
fn is_bound(name: Word) -> bool
    ensures { result ≡ is_bound name }
{
    let name = name.as_bytes();
    is_same(b"LEAST", name) || is_same(b"GREATEST", name)
}

// Whether a role is one of a local or of a function's own value.
fn is_own(role: Option<Role>) -> bool
    ensures { result ≡ role_passes is_own role }
{
    matches!(role, Some(Role::OwnValue | Role::Local))
}

// Whether a role is that of a local.
fn is_local(role: Option<Role>) -> bool
    ensures { result ≡ role_passes is_local role }
{
    matches!(role, Some(Role::Local))
}

// Whether there is a role.
fn is_known(role: Option<Role>) -> bool
    ensures { result ≡ role_passes any_role role }
{
    role.is_some()
}

/// Whether a symbol passes a test.
pub(crate) fn symbol_passes(test: NameTest, roles: &Roles, name: Word) -> bool
    ensures { result ≡ now_passes test roles.now name }
{
    match test {
        NameTest::NoOld | NameTest::GoodOld => true,
        NameTest::KnownNames => is_bound(name) || is_known(roles.role(name)),
        NameTest::NoOwn => is_bound(name) || !is_own(roles.role(name)),
        NameTest::NoLocal => is_bound(name) || !is_local(roles.role(name)),
    }
}

/// Whether the entry value of a name passes a test.
pub(crate) fn entry_passes(test: NameTest, roles: &Roles, name: Word) -> bool
    ensures { result ≡ entry_passes test roles.now name }
{
    match test {
        NameTest::NoOld => false,
        NameTest::GoodOld => is_bound(name) || !is_own(roles.role(name)),
        NameTest::KnownNames => !is_bound(name) && is_known(roles.role(name)),
        NameTest::NoOwn | NameTest::NoLocal => true,
    }
}
