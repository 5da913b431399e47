// What declarations have done to names.
ghost use Rattle.std.specs.Prelude.{◌≡◌, [], IfOk, OnOk};
ghost use Rattle.fort_syntax.specs.Units.{items_by};
ghost use Rattle.fort_syntax.specs.NameRules.{typed_by, commons_by};
ghost use Rattle.decl_faults.specs.NameScans.{given_of, nothing_done, does_twice, done_with};

use edge_io::{Keys, List, NoMemory};
use fort_syntax::{Item, Name, Stmt};
use name_tables::NameSet;
use std::alloc::Global;
use stmt_names::{dimensioned, dummies_by, names_of};

/// The names that a statement types, gives dimensions, and puts into COMMON.
#[derive(Drop)]
pub(crate) struct Given {
    pub(crate) typed: List<Name>,
    pub(crate) dimensioned: List<Name>,
    pub(crate) commons: List<Name>,
}

fn typed_by(alloc: Global, stmt: &Stmt, items: &[Item]) -> Result<List<Name>, NoMemory>
    requires { items.now ≡ items_by stmt.now }
    ensures { IfOk result (λ names. names ≡ typed_by stmt.now) }
{
    match stmt {
        Stmt::Declare(..) => names_of(alloc, items),
        _ => Ok(List::from_vec(Vec::new(alloc))),
    }
}

/// The names that a statement with these items puts into COMMON.
pub fn commons_by(alloc: Global, stmt: &Stmt, items: &[Item]) -> Result<List<Name>, NoMemory>
    requires { items.now ≡ items_by stmt.now }
    ensures { IfOk result (λ names. names ≡ commons_by stmt.now) }
{
    match stmt {
        Stmt::Common(_) => names_of(alloc, items),
        _ => Ok(List::from_vec(Vec::new(alloc))),
    }
}

/// The names that a statement with these items types, gives dimensions, and puts into COMMON.
pub(crate) fn given_by(alloc: Global, stmt: &Stmt, items: &[Item]) -> Result<Given, NoMemory>
    requires { items.now ≡ items_by stmt.now }
    ensures { IfOk result (λ given. given ≡ given_of stmt.now) }
{
    let Ok(typed) = typed_by(alloc, stmt, items) else {
        return Err(NoMemory);
    };
    let Ok(dimensioned) = dimensioned(alloc, items) else {
        return Err(NoMemory);
    };
    let Ok(commons) = commons_by(alloc, stmt, items) else {
        return Err(NoMemory);
    };
    Ok(Given {
        typed,
        dimensioned,
        commons,
    })
}

/// The names that statements have made dummies, typed, given dimensions, and put into COMMON.
#[derive(Drop)]
pub(crate) struct Done {
    pub(crate) dummies: NameSet,
    pub(crate) typed: NameSet,
    pub(crate) dimensioned: NameSet,
    pub(crate) commons: NameSet,
}

impl Done {
    pub(crate) fn new(alloc: Global, keys: Keys) -> Done
        ensures { result ≡ nothing_done }
    {
        Done {
            dummies: NameSet::new(alloc, keys),
            typed: NameSet::new(alloc, keys),
            dimensioned: NameSet::new(alloc, keys),
            commons: NameSet::new(alloc, keys),
        }
    }

    /// Does what a statement does: whether it does something to a name the second time.
    pub(crate) fn does_twice(&mut self, stmt: &Stmt, given: &Given) -> Result<bool, NoMemory>
        ensures twice { IfOk result (λ twice. twice ≡ does_twice self.old stmt.now given.now) }
        ensures after { OnOk result (self.new ≡ done_with self.old stmt.now given.now) }
    {
        let Ok(dummies) = self.dummies.add_all(dummies_by(stmt)) else {
            return Err(NoMemory);
        };
        let Ok(typed) = self.typed.add_all(given.typed.as_slice()) else {
            return Err(NoMemory);
        };
        let Ok(dimensioned) = self.dimensioned.add_all(given.dimensioned.as_slice()) else {
            return Err(NoMemory);
        };
        let Ok(commons) = self.commons.add_all(given.commons.as_slice()) else {
            return Err(NoMemory);
        };
        Ok(dummies || typed || dimensioned || commons)
    }
}
