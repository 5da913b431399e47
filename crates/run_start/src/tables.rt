// Tables of a start.
ghost use Rattle.std.specs.Prelude.{IfOk};
ghost use Rattle.run_start.specs.Cases.{AreTables};

use crate::places::WordPlaces;
use crate::words::{entity_names, given_words, name_words};
use edge_io::{Keys, NoMemory};
use formula::Word;
use fort_notes::Given;
use fort_syntax::{Name, Unit};
use std::alloc::Global;
use unit_tables::NamePlaces;

/// What a unit's names are given, its start entities, and its data names, by name.
#[derive(Drop)]
pub(crate) struct Tables {
    pub words: Vec<Word>,
    pub table: WordPlaces,
    pub twice: bool,
    pub names: Vec<Name>,
    pub places: WordPlaces,
    pub known: NamePlaces,
}

/// The tables of a start, in time for what is given and for the names of the unit.
pub(crate) fn tables_of(
    alloc: Global,
    keys: Keys,
    unit: &Unit,
    given: &[Given],
) -> Result<Tables, NoMemory>
    ensures { IfOk result (AreTables unit.now given.now) }
{
    let words = given_words(alloc, given)?;
    let Ok((table, twice)) = WordPlaces::new(alloc, keys, words.as_slice()) else {
        return Err(NoMemory);
    };
    let names = entity_names(alloc, unit)?;
    let entities = name_words(alloc, names.as_slice())?;
    let Ok((places, _)) = WordPlaces::new(alloc, keys, entities.as_slice()) else {
        return Err(NoMemory);
    };
    let known = NamePlaces::new(alloc, keys, unit)?;
    Ok(Tables {
        words,
        table,
        twice,
        names,
        places,
        known,
    })
}
