// The words of names.
ghost use Rattle.std.specs.Prelude.{◌≡◌, [], ◌∷◌, ◌++◌, map, IfOk, OnOk};
ghost use Rattle.fort_syntax.specs.Names.{items_of, commons};
ghost use Rattle.run_start.specs.Places.{names_of_units};
ghost use Rattle.run_start.specs.Starts.{entities, names_given};

use edge_io::NoMemory;
use formula::Word;
use fort_notes::Given;
use fort_syntax::{Group, Item, Name, Unit, word_of};
use std::alloc::Global;

fn push_word(words: &mut Vec<Word>, word: Word) -> Result<(), NoMemory>
    ensures { OnOk result (words.new.items ≡ words.old.items ++ word ∷ []) }
{
    match words.push(word) {
        Ok(()) => Ok(()),
        Err(_) => Err(NoMemory),
    }
}

/// The names that are given.
pub(crate) fn given_words(alloc: Global, given: &[Given]) -> Result<Vec<Word>, NoMemory>
    ensures { IfOk result (λ words. words.items ≡ names_given given.now) }
{
    let mut words = Vec::new(alloc);
    for entry in given {
        push_word(&mut words, entry.name)?;
    }
    Ok(words)
}

/// The names of units.
pub(crate) fn unit_words(alloc: Global, units: &[Unit]) -> Result<Vec<Word>, NoMemory>
    ensures { IfOk result (λ words. words.items ≡ names_of_units units.now) }
{
    let mut words = Vec::new(alloc);
    for unit in units {
        push_word(&mut words, word_of(&unit.name))?;
    }
    Ok(words)
}

/// The words of names.
pub(crate) fn name_words(alloc: Global, names: &[Name]) -> Result<Vec<Word>, NoMemory>
    ensures { IfOk result (λ words. words.items ≡ names.now) }
{
    let mut words = Vec::new(alloc);
    for name in names {
        push_word(&mut words, word_of(name))?;
    }
    Ok(words)
}

fn push(all: &mut Vec<Name>, name: Name) -> Result<(), NoMemory>
    ensures { OnOk result (all.new.items ≡ all.old.items ++ name ∷ []) }
{
    match all.push(name) {
        Ok(()) => Ok(()),
        Err(_) => Err(NoMemory),
    }
}

fn push_names(all: &mut Vec<Name>, names: &[Name]) -> Result<(), NoMemory>
    ensures { OnOk result (all.new.items ≡ all.old.items ++ names.now) }
{
    for name in names {
        push(all, *name)?;
    }
    Ok(())
}

fn push_items(all: &mut Vec<Name>, items: &[Item]) -> Result<(), NoMemory>
    ensures { OnOk result (all.new.items ≡ all.old.items ++ map (λ item. item.name) items.now) }
{
    for item in items {
        push(all, item.name)?;
    }
    Ok(())
}

fn push_blocks(all: &mut Vec<Name>, blocks: &[Group]) -> Result<(), NoMemory>
    ensures { OnOk result (all.new.items ≡ all.old.items ++ items_of blocks.now) }
{
    for group in blocks {
        push_items(all, group.items.as_slice())?;
    }
    Ok(())
}

/// The start entities of a unit.
pub(crate) fn entity_names(alloc: Global, unit: &Unit) -> Result<Vec<Name>, NoMemory>
    ensures { IfOk result (λ all. all.items ≡ entities unit.now) }
{
    let mut all = Vec::new(alloc);
    push_names(&mut all, unit.dummies.as_slice())?;
    push_blocks(&mut all, unit.blocks.as_slice())?;
    Ok(all)
}
