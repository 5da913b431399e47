// The values of symbols.
ghost use Rattle.std.specs.Prelude.{◌≡◌, ℕ, List};
ghost use Rattle.term_worth.specs.Machine.{entry_at, held_at, value_of, symbols_of, IsHeld, IsScope};
ghost use Rattle.formula.specs.Worth.{assigned};
ghost use Rattle.formula.specs.declared.value.Cell.{Cell};

use crate::Sheet;
use crate::machine::{Held, Scope};
use crate::parameters::parameter;
use formula::{Definitions, Value, Word};

/// The value of a symbol.
pub fn value_in(definitions: &Definitions, sheet: &Sheet, scope: &Scope, name: Word) -> Held
    ensures value { (made : List (List Cell)) → value_of sheet.now made result
        ≡ symbols_of definitions.now sheet.now made scope.now name }
    ensures held { (n : ℕ) → IsScope n scope.now → IsHeld n result }
{
    match scope {
        Scope::Sheet => on_sheet(sheet, name),
        Scope::Arguments(params, args) => parameter(definitions, params, args.as_slice(), name),
    }
}

/// The value of a symbol on the sheet.
fn on_sheet(sheet: &Sheet, name: Word) -> Held
    ensures value { (made : List (List Cell)) → value_of sheet.now made result ≡ assigned sheet.now name }
    ensures held { (n : ℕ) → IsHeld n result }
{
    match sheet.place_of(name) {
        Some(place) => entry_held(sheet.entries(), place),
        None => Held::Undefined,
    }
}

/// How the value of the entry at a place is held.
fn entry_held(entries: &[(Word, Value)], place: usize) -> Held
    ensures { result ≡ held_at (entry_at entries.now place) place }
{
    match entries.get(place) {
        Some(entry) => value_held(&entry.1, place),
        None => Held::Undefined,
    }
}

/// How the value of an entry is held.
fn value_held(value: &Value, place: usize) -> Held
    ensures { result ≡ held_at value.now place }
{
    match value {
        Value::Int(n) => Held::Int(*n),
        Value::Logical(b) => Held::Logical(*b),
        Value::Undefined => Held::Undefined,
        Value::Cells(_) => Held::Given(place),
    }
}
