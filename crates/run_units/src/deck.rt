// The code of a deck.
ghost use Rattle.std.specs.Prelude.{◌≡◌, [], ◌∷◌, ◌++◌, IfOk, OnOk};
ghost use Rattle.fort_syntax.specs.WellFormed.{AreWellFormedUnits};
ghost use Rattle.fort_syntax.specs.declared.dialect.Dialect.{Dialect as ADialect};
ghost use Rattle.run_shapes.specs.Coded.{IsCodeOf};
ghost use Rattle.run_units.specs.Coding.{AreUnitsOf, HaveShared};

use crate::commons::{Commons, commons_of_units};
use crate::unit::Deck;
use edge_io::{Keys, List, NoMemory};
use fort_syntax::{Dialect, Name, Unit};
use run_shapes::{Code, UnitCode};
use run_slots::SlotTable;
use std::alloc::Global;
use unit_tables::UnitNumbers;

fn push_unit(codes: &mut Vec<UnitCode>, code: UnitCode) -> Result<(), NoMemory>
    ensures { OnOk result (codes.new.items ≡ codes.old.items ++ code ∷ []) }
{
    match codes.push(code) {
        Ok(()) => Ok(()),
        Err(_) => Err(NoMemory),
    }
}

/// The code of all units.
fn codes_of(alloc: Global, keys: Keys, deck: &Deck) -> Result<Vec<UnitCode>, NoMemory>
    requires well { (d : ADialect) × AreWellFormedUnits d deck.now.units.now }
    requires shared { HaveShared deck.now.commons.now.names.now deck.now.units.now }
    ensures { IfOk result (λ codes. AreUnitsOf deck.now.units.now deck.now.commons.now.names.now
        codes.items) }
{
    let mut codes = Vec::new(alloc);
    let units = deck.units;
    for at in 0..units.len() {
        let code = deck.code(alloc, keys, &units[at])?;
        push_unit(&mut codes, code)?;
    }
    Ok(codes)
}

fn codes_by(
    alloc: Global,
    keys: Keys,
    units: &[Unit],
    names: &[Name],
) -> Result<Vec<UnitCode>, NoMemory>
    requires well { (d : ADialect) × AreWellFormedUnits d units.now }
    requires shared { HaveShared names.now units.now }
    ensures { IfOk result (λ codes. AreUnitsOf units.now names.now codes.items) }
{
    let table = SlotTable::new(alloc, keys, names)?;
    let numbers = UnitNumbers::new(alloc, keys, units)?;
    let commons = Commons {
        names,
        table: &table,
    };
    let deck = Deck {
        units,
        numbers: &numbers,
        commons: &commons,
    };
    codes_of(alloc, keys, &deck)
}

/// The code of the units of a deck, in time for their text; or want of memory, which only a refused
/// growth gives. No answer depends on the keys.
pub fn code_of_units(
    alloc: Global,
    keys: Keys,
    dialect: Dialect,
    units: &[Unit],
) -> Result<Code, NoMemory>
    requires { AreWellFormedUnits dialect units.now }
    ensures { IfOk result (IsCodeOf dialect units.now) }
{
    let names = commons_of_units(alloc, keys, units)?;
    let codes = codes_by(alloc, keys, units, names.as_slice())?;
    Ok(Code {
        dialect,
        commons: List::from_vec(names),
        units: List::from_vec(codes),
    })
}
