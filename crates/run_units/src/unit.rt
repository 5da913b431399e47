// The code of a unit.
ghost use Rattle.std.specs.Prelude.{◌≡◌, true, IfOk};
ghost use Rattle.formula.specs.Atoms.{is_among};
ghost use Rattle.fort_syntax.specs.Names.{commons};
ghost use Rattle.fort_syntax.specs.WellFormed.{IsWellFormedUnit};
ghost use Rattle.fort_syntax.specs.declared.dialect.Dialect.{Dialect};
ghost use Rattle.fort_syntax.specs.declared.name.Name.{Name as AName};
ghost use Rattle.run_shapes.specs.Coded.{IsUnitCodeOf};
ghost use Rattle.unit_tables.specs.UnitTables.{AreUnitNumbers};
ghost use Rattle.run_units.specs.Parts.{HasParts, code_by};

use crate::commons::Commons;
use crate::laws::parts_are_code;
use crate::parts::{Body, Parts, parts_of};
use call_sites::Book;
use edge_io::{Keys, List, NoMemory};
use fort_syntax::{Name, Unit};
use run_coding::Scope;
use run_doing::TestTable;
use run_lines::Draft;
use run_made::Made;
use run_shapes::{Slots, UnitCode};
use run_sizes::Sizes;
use run_slots::{SlotTable, names_of_slots};
use std::alloc::Global;
use unit_tables::UnitNumbers;

/// The units of a deck with tables.
#[derive(Drop)]
pub(crate) struct Deck<'a> {
    pub(crate) units: &'a [Unit],
    pub(crate) numbers: &'a UnitNumbers,
    pub(crate) commons: &'a Commons<'a>,
    ghost numbers_are: { AreUnitNumbers units.now numbers.now },
}

/// The slots of a unit by its names and their dimensions.
fn slots_by(names: Vec<Name>, sizes: Sizes, dummies: usize, own: usize) -> Slots
    ensures { result ≡ record {
      names = names.items;
      dummies = dummies;
      own = own;
      shapes =
          sizes.shapes.items;
      sizes = sizes.sizes.items;
    } }
{
    let Sizes { shapes, sizes } = sizes;
    Slots {
        names: List::from_vec(names),
        dummies,
        own,
        shapes: List::from_vec(shapes),
        sizes: List::from_vec(sizes),
    }
}

/// The code of a unit by its names and its parts.
fn joined(unit: &Unit, names: Vec<Name>, parts: Parts) -> UnitCode
    ensures { result ≡ code_by unit.now names.items parts }
{
    let Parts {
        sizes,
        body,
        shared,
        dummies,
        own,
        value,
    } = parts;
    let Body { table, made } = body;
    let TestTable { tests, .. } = table;
    let Made { draft, codes } = made;
    let Draft {
        instrs,
        calls,
        targets,
    } = draft;
    UnitCode {
        name: unit.name,
        is_function: unit.sort.is_some(),
        value,
        slots: slots_by(names, sizes, dummies, own),
        shared: List::from_vec(shared),
        tests: List::from_vec(tests),
        calls: List::from_vec(calls),
        targets: List::from_vec(targets),
        instrs: List::from_vec(instrs),
        lines: List::from_vec(codes),
    }
}

impl<'a> Deck<'a> {
    fn parts(
        &self,
        alloc: Global,
        keys: Keys,
        unit: &Unit,
        names: &[Name],
    ) -> Result<Parts, NoMemory>
        ensures { IfOk result (HasParts unit.now self.now.units.now names.now
            self.now.commons.now.names.now) }
    {
        let table = SlotTable::new(alloc, keys, names)?;
        let book = Book::new(alloc, keys, unit)?;
        let scope = Scope {
            book: &book,
            units: self.units,
            numbers: self.numbers,
            names,
            table: &table,
        };
        let result = parts_of(alloc, keys, self.commons, &scope);
        let Scope {
            book: _,
            units: _,
            numbers: _,
            names: _,
            table: _,
        } = scope;
        result
    }

    /// The code of one of the units.
    pub(crate) fn code(&self, alloc: Global, keys: Keys, unit: &Unit) -> Result<UnitCode, NoMemory>
        requires well { (d : Dialect) × IsWellFormedUnit d unit.now }
        requires shared { (x : AName) → is_among x (commons unit.now) ≡ true
            → is_among x self.now.commons.now.names.now ≡ true }
        ensures { IfOk result (IsUnitCodeOf self.now.units.now self.now.commons.now.names.now unit.now) }
    {
        parts_are_code();
        let names = names_of_slots(alloc, unit)?;
        let parts = self.parts(alloc, keys, unit, names.as_slice())?;
        Ok(joined(unit, names, parts))
    }
}
