// A call.
ghost use Rattle.std.specs.Prelude.{◌≡◌, length, map, IfOk, OnOk};
ghost use Rattle.fort_model.specs.Program.{smashed_names};
ghost use Rattle.fort_model.specs.WalkCalls.{hits, seen_by, stands_for};
ghost use Rattle.weight_caps.specs.Capped.{capped};
ghost use Rattle.weight_terms.specs.Held.{held, marked};
ghost use Rattle.weight_tallies.specs.Tallies as tally;
ghost use Rattle.weight_calls.specs.Calls.{IsWeighed, ones_set};
ghost use Rattle.weight_calls.specs.Operands.{operand_of};
ghost use Rattle.weight_calls.specs.Seen.{changed_by};
ghost use Rattle.weight_calls.specs.Programs.{seen_program};
ghost use Rattle.weight_calls.specs.Subjects.{sight_of};

use crate::operands::{Operand, bare_names, weights_of};
use crate::seen::{Caller, seen, weights_behind};
use crate::subject::Subject;
use call_hits::call_hits;
use call_sites::Book;
use edge_io::{List, NoMemory};
use fort_syntax::Name;
use name_tables::NameSet;
use weight_caps::{CAP, Load};
use weight_terms::{NameWeights, Told, sum_terms, test_terms};

/// A called unit, with its number and its tables.
#[derive(Clone, Copy)]
struct Callee<'a> {
    number: usize,
    book: &'a Book<'a>,
}

/// So many names, as far as the cap.
fn count_of(names: &[Name]) -> u32
    ensures { result ≡ capped (length names.now) }
{
    let count = names.len();
    if count < CAP as usize {
        return count as u32;
    }
    CAP
}

/// The names that a call smashes, where the called unit smashes some names.
fn hit_names(
    subject: &Subject,
    callee: &Callee,
    operands: &[Operand],
    smashed: &NameSet,
) -> Result<List<Name>, NoMemory>
    requires { smashed_names (seen_program subject.now.pool.now subject.now.scene.now)
        callee.now.number ≡ smashed.now }
    ensures { IfOk result (λ ns. ns ≡ hits (sight_of subject.now) callee.now.number
        callee.now.book.now.unit.now (map operand_of operands.now)) }
{
    let Ok(bare) = bare_names(subject.alloc, operands) else {
        return Err(NoMemory);
    };
    let Ok(names) = call_hits(
        subject.alloc,
        subject.book,
        callee.book,
        smashed,
        bare.as_slice(),
    ) else {
        return Err(NoMemory);
    };
    Ok(names)
}

/// The names that a call smashes.
fn smashed_by(
    subject: &Subject,
    callee: &Callee,
    operands: &[Operand],
) -> Result<List<Name>, NoMemory>
    ensures { IfOk result (λ ns. ns ≡ hits (sight_of subject.now) callee.now.number
        callee.now.book.now.unit.now (map operand_of operands.now)) }
{
    let none = NameSet::new(subject.alloc, subject.keys);
    match subject.smashes(callee.number) {
        Some(smashed) => hit_names(subject, callee, operands, smashed),
        None => hit_names(subject, callee, operands, &none),
    }
}

/// What the names of a called unit weigh at its entry.
fn seen_before(
    subject: &Subject,
    callee: &Callee,
    names: &NameWeights,
    operands: &[Operand],
) -> Result<NameWeights, NoMemory>
    ensures { IfOk result (λ t. held t ≡ seen_by (sight_of subject.now) callee.now.book.now.unit.now
        (map stands_for (map operand_of operands.now)) (held names.now) 1) }
{
    let Ok(weights) = weights_of(subject.alloc, operands) else {
        return Err(NoMemory);
    };
    let none = NameSet::new(subject.alloc, subject.keys);
    let caller = Caller {
        names,
        smashed: &none,
    };
    let Ok(table) = seen(subject, callee.book.unit, &caller, weights.as_slice()) else {
        return Err(NoMemory);
    };
    Ok(table)
}

/// What the names of a called unit weigh at its end, where the call smashed some names.
fn seen_behind(
    subject: &Subject,
    callee: &Callee,
    names: &NameWeights,
    smashed: &[Name],
    operands: &[Operand],
) -> Result<NameWeights, NoMemory>
    ensures { IfOk result (λ t. held t ≡ tally.seen_after (sight_of subject.now)
        callee.now.book.now.unit.now (changed_by smashed.now (held names.now))
        (map operand_of operands.now)) }
{
    let mut set = NameSet::new(subject.alloc, subject.keys);
    let Ok(_) = set.add_all(smashed) else {
        return Err(NoMemory);
    };
    let caller = Caller {
        names,
        smashed: &set,
    };
    let Ok(weights) = weights_behind(subject.alloc, &caller, operands) else {
        return Err(NoMemory);
    };
    let Ok(table) = seen(subject, callee.book.unit, &caller, weights.as_slice()) else {
        return Err(NoMemory);
    };
    Ok(table)
}

/// A call of a unit: INPUT is tested; then 1 is added for each name that is smashed, and the terms
/// of OUTPUT. It answers the names that are smashed.
fn weigh(
    subject: &Subject,
    callee: &Callee,
    names: &NameWeights,
    operands: &[Operand],
    load: &mut Load,
) -> Result<List<Name>, NoMemory>
    ensures { IfOk result (λ ns. IsWeighed (tally.unit_called (sight_of subject.now)
        callee.now.number callee.now.book.now.unit.now (held names.now)
        (map operand_of operands.now)) load.old (held names.now) load.new ns) }
{
    let Ok(before) = seen_before(subject, callee, names, operands) else {
        return Err(NoMemory);
    };
    let told = Told {
        before: &before,
        behind: &before,
    };
    let input = subject.input(callee.number);
    let Ok(()) = test_terms(subject.alloc, subject.pool, &told, input, load) else {
        return Err(NoMemory);
    };
    let Ok(smashed) = smashed_by(subject, callee, operands) else {
        return Err(NoMemory);
    };
    load.add(count_of(smashed.as_slice()));
    let Ok(behind) = seen_behind(subject, callee, names, smashed.as_slice(), operands) else {
        return Err(NoMemory);
    };
    let told = Told {
        before: &before,
        behind: &behind,
    };
    let output = subject.output(callee.number);
    let Ok(sum) = sum_terms(subject.alloc, subject.pool, &told, output) else {
        return Err(NoMemory);
    };
    load.add(sum);
    Ok(smashed)
}

/// A call of the unit of a number, if there is one. It answers the names that are smashed.
fn weigh_any(
    subject: &Subject,
    callee: Option<usize>,
    names: &NameWeights,
    operands: &[Operand],
    load: &mut Load,
) -> Result<List<Name>, NoMemory>
    ensures { IfOk result (λ ns. IsWeighed (tally.called (sight_of subject.now) callee
        (held names.now) (map operand_of operands.now)) load.old (held names.now) load.new ns) }
{
    let Some(number) = callee else {
        return Ok(List::from_vec(Vec::new(subject.alloc)));
    };
    if number >= subject.scene.books.units.len() {
        return Ok(List::from_vec(Vec::new(subject.alloc)));
    }
    let called = Callee {
        number,
        book: subject.scene.books.book(number),
    };
    let Ok(smashed) = weigh(subject, &called, names, operands, load) else {
        return Err(NoMemory);
    };
    Ok(smashed)
}

/// A reference in an expression to a unit, told by its number: names weigh afterwards what they
/// weighed before.
pub fn refer(
    subject: &Subject,
    callee: Option<usize>,
    names: &NameWeights,
    operands: &[Operand],
    load: &mut Load,
) -> Result<(), NoMemory>
    ensures { OnOk result (load.new ≡ (tally.called (sight_of subject.now) callee (held names.now)
        (map operand_of operands.now) load.old).load) }
{
    let Ok(_) = weigh_any(subject, callee, names, operands, load) else {
        return Err(NoMemory);
    };
    Ok(())
}

/// Some names weigh 1 from now on.
fn set_ones(names: &mut NameWeights, smashed: &[Name]) -> Result<(), NoMemory>
    ensures names { OnOk result (held names.new ≡ ones_set smashed.now (held names.old)) }
    ensures marks { OnOk result (marked names.new ≡ marked names.old) }
{
    for name in smashed {
        let Ok(()) = names.set(name, 1) else {
            return Err(NoMemory);
        };
    }
    Ok(())
}

/// A CALL of a unit, told by its number.
pub fn call(
    subject: &Subject,
    callee: Option<usize>,
    names: &mut NameWeights,
    operands: &[Operand],
    load: &mut Load,
) -> Result<(), NoMemory>
    ensures load { OnOk result (load.new ≡ (tally.called (sight_of subject.now) callee
        (held names.old) (map operand_of operands.now) load.old).load) }
    ensures names { OnOk result (held names.new ≡ (tally.called (sight_of subject.now) callee
        (held names.old) (map operand_of operands.now) load.old).value) }
    ensures marks { OnOk result (marked names.new ≡ marked names.old) }
{
    let Ok(smashed) = weigh_any(subject, callee, names, operands, load) else {
        return Err(NoMemory);
    };
    let Ok(()) = set_ones(names, smashed.as_slice()) else {
        return Err(NoMemory);
    };
    Ok(())
}
