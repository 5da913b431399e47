// A unit with tables of its names.
ghost use Rattle.std.specs.Prelude.{◌≡◌, [], is_some, option_copied, IfOk};
ghost use Rattle.fort_model.specs.Arguments.{applied_sort, data_sort, dims_of_actual, reference_sort, sort_of_expr};
ghost use Rattle.fort_model.specs.CallRules.{declares};
ghost use Rattle.fort_syntax.specs.Names.{applied, data_name, dims_of, intrinsic};
ghost use Rattle.name_tables.specs.Tables.{all_told, first_of};
ghost use Rattle.unit_tables.specs.Tables.{AreNamePlaces};
ghost use Rattle.call_sites.specs.Books.{has_blank, is_call, numbered, sorts_told, with_blocks};

use crate::telling::{add_blocks, has_blank, tell_numbers, tell_sorts};
use edge_io::{Keys, NoMemory};
use fort_syntax::{BlockName, DataName, Dim, Expr, Name, Sort, Unit};
use name_tables::{NameSet, Table};
use std::alloc::Global;
use unit_tables::NamePlaces;

/// A unit, and tables by which its names are found.
#[derive(Drop)]
pub struct Book<'a> {
    pub unit: &'a Unit,
    places: NamePlaces,
    functions: Table<Sort>,
    dummies: Table<usize>,
    blocks: NameSet,
    blank: bool,
    ghost places_told: { AreNamePlaces unit.now places },
    ghost functions_told: { functions ≡ all_told [] (sorts_told unit.now.functions) },
    ghost dummies_told: { dummies ≡ all_told [] (numbered unit.now.dummies 0) },
    ghost blocks_named: { blocks ≡ with_blocks [] unit.now.blocks },
    ghost blank_told: { blank ≡ has_blank unit.now.blocks },
}

/// Whether a name is that of an intrinsic function.
#[tactic(auto, using(crate::proofs::Booked::intrinsic_is))]
pub fn is_intrinsic(name: &Name) -> bool
    ensures { result ≡ is_some (intrinsic name.now) }
{
    let bytes = name.as_bytes();
    bytes == b"IABS".as_slice()
        || bytes == b"MOD".as_slice()
        || bytes == b"MAX0".as_slice()
        || bytes == b"MIN0".as_slice()
}

impl<'a> Book<'a> {
    /// The tables of a unit. No answer depends on the keys.
    pub fn new(alloc: Global, keys: Keys, unit: &'a Unit) -> Result<Book<'a>, NoMemory>
        ensures { IfOk result (λ book. book.unit.now ≡ unit.now) }
    {
        let Ok(places) = NamePlaces::new(alloc, keys, unit) else {
            return Err(NoMemory);
        };
        let Ok(functions) = tell_sorts(alloc, keys, unit.functions.as_slice()) else {
            return Err(NoMemory);
        };
        let Ok(dummies) = tell_numbers(alloc, keys, unit.dummies.as_slice()) else {
            return Err(NoMemory);
        };
        let mut blocks = NameSet::new(alloc, keys);
        let Ok(()) = add_blocks(&mut blocks, unit.blocks.as_slice()) else {
            return Err(NoMemory);
        };
        let blank = has_blank(unit.blocks.as_slice());
        Ok(Book {
            unit,
            places,
            functions,
            dummies,
            blocks,
            blank,
        })
    }

    /// The data name of this name.
    pub fn data(&self, name: &Name) -> Option<&'a DataName>
        ensures { option_copied result ≡ data_name self.now.unit.now name.now }
    {
        self.places.data(self.unit, name)
    }

    /// The dimensions of a name; none where it is no array.
    pub fn dims(&self, name: &Name) -> &'a [Dim]
        ensures { result.now ≡ dims_of self.now.unit.now name.now }
    {
        match self.data(name) {
            Some(data) => data.dims.as_slice(),
            None => &[],
        }
    }

    /// The type of a data name.
    pub fn data_sort(&self, name: &Name) -> Option<Sort>
        ensures { result ≡ data_sort (data_name self.now.unit.now name.now) }
    {
        match self.data(name) {
            Some(data) => Some(data.sort),
            None => None,
        }
    }

    /// The type that the unit gives a function that it references.
    #[tactic(auto, using(crate::proofs::Booked::sort_found))]
    pub fn reference_sort(&self, name: &Name) -> Option<Sort>
        ensures { result ≡ reference_sort self.now.unit.now.functions name.now }
    {
        match self.functions.get(name) {
            Some(sort) => Some(*sort),
            None => None,
        }
    }

    /// The number of the dummy of this name, as a table tells it.
    pub(crate) fn dummy(&self, name: &Name) -> Option<usize>
        ensures { result ≡ first_of (all_told [] (numbered self.now.unit.now.dummies 0)) name.now }
    {
        match self.dummies.get(name) {
            Some(number) => Some(*number),
            None => None,
        }
    }

    /// Whether a name before a bracket is a reference to a FUNCTION of the deck.
    #[tactic(auto, using(crate::proofs::Booked::call_is))]
    pub fn is_call(&self, name: &Name) -> bool
        ensures { result ≡ is_call (applied self.now.unit.now name.now) }
    {
        self.dims(name).is_empty() && !is_intrinsic(name)
    }

    /// The type of an element, or of a function with its arguments.
    fn applied_sort(&self, name: &Name) -> Option<Sort>
        ensures { result ≡ applied_sort self.now.unit.now name.now (applied self.now.unit.now name.now) }
    {
        if !self.dims(name).is_empty() {
            self.data_sort(name)
        } else if is_intrinsic(name) {
            Some(Sort::Integer)
        } else {
            self.reference_sort(name)
        }
    }

    /// The type of an expression; none where a name in it has none.
    pub fn sort_of(&self, e: &Expr) -> Option<Sort>
        ensures { result ≡ sort_of_expr self.now.unit.now e.now }
    {
        match e {
            Expr::Const(_) => Some(Sort::Integer),
            Expr::Truth(_) => Some(Sort::Logical),
            Expr::Var(x) => self.data_sort(x),
            Expr::Apply(f, _) => self.applied_sort(f),
            Expr::Paren(a) => self.sort_of(a.get()),
            Expr::Pos(_) => Some(Sort::Integer),
            Expr::Neg(_) => Some(Sort::Integer),
            Expr::Power(..) => Some(Sort::Integer),
            Expr::Bin(..) => Some(Sort::Integer),
            Expr::Rel(..) => Some(Sort::Logical),
            Expr::Not(_) => Some(Sort::Logical),
            Expr::And(..) => Some(Sort::Logical),
            Expr::Or(..) => Some(Sort::Logical),
        }
    }

    /// The dimensions of an actual: those of a bare name.
    pub fn dims_of_actual(&self, e: &Expr) -> &'a [Dim]
        ensures { result.now ≡ dims_of_actual self.now.unit.now e.now }
    {
        match e {
            Expr::Var(x) => self.dims(x),
            _ => &[],
        }
    }

    /// Whether the unit declares a block.
    #[tactic(auto, using(crate::proofs::Booked::named_declared, crate::proofs::Booked::bare_declared, crate::proofs::Booked::blank_declared))]
    pub fn declares(&self, block: &BlockName) -> bool
        ensures { result ≡ declares self.now.unit.now block.now }
    {
        match block {
            BlockName::Named(name) => self.blocks.has(name),
            BlockName::Bare => self.blank,
            BlockName::Slashes => self.blank,
        }
    }
}
