// Assignments.
ghost use Rattle.std.specs.Prelude.{◌≡◌, ◌++◌, ◌∷◌, ℕ, List, IfOk, OnOk};
ghost use Rattle.formula.specs.Worth.{assigned};
ghost use Rattle.formula.specs.declared.value.Value.{Value};

use edge_io::{Keys, List, NoMemory};
use formula::{Value, Word};
use std::alloc::Global;
use term_worth::{Sheet, SheetFault};

/// A value once more.
fn copied(alloc: Global, value: &Value) -> Result<Value, NoMemory>
    ensures { IfOk result (λ v. v ≡ value.now) }
{
    match value {
        Value::Int(n) => Ok(Value::Int(*n)),
        Value::Logical(b) => Ok(Value::Logical(*b)),
        Value::Undefined => Ok(Value::Undefined),
        Value::Cells(cells) => {
            let Ok(cells) = Vec::from_slice(alloc, cells.as_slice()) else {
                return Err(NoMemory);
            };
            Ok(Value::Cells(List::from_vec(cells)))
        }
    }
}

/// Gives a symbol a value where it has none.
fn set(sheet: &mut Sheet, symbol: Word, value: Value) -> Result<(), NoMemory>
    ensures { OnOk result ((s : List ℕ) (rest : List (List ℕ × Value))
        → assigned (sheet.new ++ rest) s ≡ assigned (sheet.old ++ (symbol, value) ∷ rest) s) }
{
    match sheet.set(symbol, value) {
        Ok(()) => Ok(()),
        Err(SheetFault::KnownSymbol) => Ok(()),
        Err(SheetFault::NoMemory) => Err(NoMemory),
    }
}

/// The assignment of values to symbols. Where a symbol stands twice, the first value counts.
pub(crate) fn sheet_of(
    alloc: Global,
    keys: Keys,
    entries: &[(Word, Value)],
) -> Result<Sheet, NoMemory>
    ensures { IfOk result (λ sheet. (s : List ℕ) → assigned sheet s ≡ assigned entries.now s) }
{
    let mut sheet = Sheet::new(alloc, keys);
    for i in 0..entries.len() {
        let entry = &entries[i];
        let value = copied(alloc, &entry.1)?;
        set(&mut sheet, entry.0, value)?;
    }
    Ok(sheet)
}
