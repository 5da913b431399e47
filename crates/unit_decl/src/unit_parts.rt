// The head, the dummies, the executable statements and the END of a unit.
ghost use Rattle.std.specs.Prelude.{◌≡◌, [], ◌∷◌, ◌++◌, is_some, IfSome, IfOk, OnOk};
ghost use Rattle.fort_syntax.specs.Units.{class_of, is_heading, is_performing, headed_by, own_name, dummies_of, executables, card_of_first, card_of_last};
ghost use Rattle.unit_decl.specs.Heads.{is_headed};

use edge_io::{List, NoMemory};
use fort_syntax::{Class, Line, Name, Plain, Stmt};
use std::alloc::Global;
use stmt_names::dummies_by;

fn head_name(stmt: &Stmt) -> Option<Name>
    ensures some { is_some result ≡ is_heading (class_of stmt.now) }
    ensures name { IfSome result (λ name. name ≡ headed_by stmt.now) }
{
    match stmt {
        Stmt::Subroutine(name, _) => Some(*name),
        Stmt::Function(_, name, _) => Some(*name),
        _ => None,
    }
}

/// The name of a unit, where its first statement is a head.
pub(crate) fn unit_name(unit: &[Line]) -> Option<Name>
    ensures some { is_some result ≡ is_headed unit.now }
    ensures name { IfSome result (λ name. name ≡ own_name unit.now) }
{
    if unit.is_empty() {
        None
    } else {
        head_name(&unit[0].stmt)
    }
}

/// The card of the first of some statements: 0 of none.
pub(crate) fn first_card(unit: &[Line]) -> u32
    ensures { result ≡ card_of_first unit.now }
{
    if unit.is_empty() { 0 } else { unit[0].card }
}

/// The card of the last of some statements: 0 of none.
pub(crate) fn last_card(unit: &[Line]) -> u32
    ensures { result ≡ card_of_last 0 unit.now }
{
    let mut card = 0;
    for line in unit {
        card = line.card;
    }
    card
}

fn push_names(all: &mut Vec<Name>, names: &[Name]) -> Result<(), NoMemory>
    ensures { OnOk result (all.new.items ≡ all.old.items ++ names.now) }
{
    for name in names {
        if all.push(*name).is_err() {
            return Err(NoMemory);
        }
    }
    Ok(())
}

/// The dummies of a unit, in order.
pub(crate) fn dummies(alloc: Global, unit: &[Line]) -> Result<List<Name>, NoMemory>
    ensures { IfOk result (λ names. names ≡ dummies_of unit.now) }
{
    let mut all = Vec::new(alloc);
    for line in unit {
        let Ok(()) = push_names(&mut all, dummies_by(&line.stmt)) else {
            return Err(NoMemory);
        };
    }
    Ok(List::from_vec(all))
}

fn is_executable(line: &Line) -> bool
    ensures { result ≡ is_performing (class_of line.now.stmt) }
{
    line.stmt.class() == Class::Performing
}

/// Adds a statement behind some.
fn push_whole(all: &mut Vec<Line>, line: Line) -> Result<(), NoMemory>
    ensures { OnOk result (all.new.items ≡ all.old.items ++ line ∷ []) }
{
    match all.push(line) {
        Ok(()) => Ok(()),
        Err(_) => Err(NoMemory),
    }
}

fn push_line(alloc: Global, all: &mut Vec<Line>, line: &Line) -> Result<(), NoMemory>
    ensures { OnOk result (all.new.items ≡ all.old.items ++ line.now ∷ []) }
{
    let Ok(copy) = line.copied(alloc) else {
        return Err(NoMemory);
    };
    push_whole(all, copy)
}

/// The executable statements of a unit.
pub(crate) fn lines(alloc: Global, unit: &[Line]) -> Result<List<Line>, NoMemory>
    ensures { IfOk result (λ lines. lines ≡ executables unit.now) }
{
    let mut all = Vec::new(alloc);
    for line in unit {
        if is_executable(line) {
            let Ok(()) = push_line(alloc, &mut all, line) else {
                return Err(NoMemory);
            };
        }
    }
    Ok(List::from_vec(all))
}
