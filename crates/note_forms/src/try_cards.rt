// TRY.
ghost use Rattle.std.specs.Prelude.{◌≡◌, ◌≤◌, length, map, drop, IfOk, OnOk};
ghost use Rattle.formula.specs.Atoms.{has_twin, is_among};
ghost use Rattle.fort_notes.specs.Parts.{parsed};
ghost use Rattle.fort_notes.specs.Forms.{try, try_form};
ghost use Rattle.note_parts.specs.Answers.{Gives};

use edge_io::{Keys, NoMemory};
use formula::{NameTable, Value, Word};
use fort_notes::TryCard;
use note_parts::{Lack, symbol, to_end};
use std::alloc::Global;

// Whether a symbol has two values.
fn has_twin(alloc: Global, keys: Keys, sheet: &[(Word, Value)]) -> Result<bool, NoMemory>
    ensures { IfOk result (λ b. b ≡ has_twin (map (λ e. e.0) sheet.now)) }
{
    let mut seen = NameTable::new(alloc, keys);
    let mut left = sheet.len();
    while left > 0 {
        left -= 1;
        let new = seen.add(sheet[left].0)?;
        if !new {
            return Ok(true);
        }
    }
    Ok(false)
}

/// The name of a condition, and values of symbols, none of which stands twice.
pub fn try_card(alloc: Global, keys: Keys, text: &[u8]) -> Result<(TryCard, &[u8]), Lack>
    ensures { Gives (λ r. parsed (try r.0) r.1.now) result (try_form text.now) }
{
    let Some((lemma, rest)) = symbol(text) else {
        return Err(Lack::Form);
    };
    let (sheet, rest) = to_end::<(Word, Value)>(alloc, rest)?;
    let twin = has_twin(alloc, keys, sheet.as_slice())?;
    if twin {
        return Err(Lack::Form);
    }
    Ok((TryCard { lemma, sheet }, rest))
}
