// The lines of TRY cards.
ghost use Rattle.std.specs.Prelude.{◌≡◌, ◌++◌, suc, map, IfOk, OnOk, IfSome, option_map, option_copied};
ghost use Rattle.std.specs.List.{All};
ghost use Rattle.event_text.specs.Conditions.{IsConditionIn, condition_tree};
ghost use Rattle.formula.specs.Adding.{AreAdded};
ghost use Rattle.formula.specs.Bounded.{bounded};
ghost use Rattle.formula.specs.Pool.{Grows, IsIn, tree_of};
ghost use Rattle.formula.specs.Values.{holds};
ghost use Rattle.formula.specs.Worth.{assigned, functions_of, nothing_known};
ghost use Rattle.try_lines.specs.Lemmas.{ArePlacesOf};
ghost use Rattle.try_lines.specs.Tries.{condition_term, line_of, named, tried, try_text, verdict_of};

use crate::Verdict;
use crate::lemmas::{Places, lemma_of};
use crate::sheets::sheet_of;
use crate::terms::term_of;
use edge_io::{List, NoMemory};
use formula::{Definitions, TermId, TermPool, Value};
use fort_notes::TryCard;
use fort_syntax::Condition;
use reply_lines::{put, put_number};
use std::alloc::Global;
use term_worth::{Sheet, Worth, worth};

/// So many uses of definitions may one card make.
const TURNS: u64 = 10_000;

/// Conditions with their places by name, and the definitions that stand in them.
#[derive(Drop)]
struct Desk<'a> {
    alloc: Global,
    definitions: &'a Definitions,
    conditions: &'a [Condition],
    places: &'a Places,
}

fn is_true(value: &Value) -> bool
    ensures { result ≡ holds value.now }
{
    !matches!(value, Value::Logical(false))
}

/// What a term comes to by an assignment.
fn verdict_of(
    alloc: Global,
    pool: &TermPool,
    definitions: &Definitions,
    term: TermId,
    sheet: &Sheet,
) -> Result<Verdict, NoMemory>
    requires term { IsIn pool.now term }
    requires added { AreAdded pool.now definitions.now }
    ensures { IfOk result (λ v. v ≡ verdict_of (bounded (functions_of pool.now definitions.now)
        (assigned sheet.now) nothing_known (tree_of pool.now term) 10000)) }
{
    match worth(alloc, pool, definitions, term, sheet, TURNS) {
        Ok(value) => {
            if is_true(&value) {
                Ok(Verdict::True)
            } else {
                Ok(Verdict::False)
            }
        }
        Err(Worth::Beyond) => Ok(Verdict::Beyond),
        Err(Worth::Spent) => Ok(Verdict::Spent),
        Err(Worth::NoMemory) => Err(NoMemory),
    }
}

/// What a condition comes to by the values that a card gives.
fn tried_condition(
    desk: &Desk,
    pool: &mut TermPool,
    condition: &Condition,
    card: &TryCard,
) -> Result<Verdict, NoMemory>
    requires condition { IsConditionIn pool.old condition.now }
    requires added { AreAdded pool.old desk.now.definitions.now }
    ensures grows { Grows pool.old pool.new }
    ensures tried { IfOk result (λ v. v ≡ verdict_of
        (bounded (functions_of pool.old desk.now.definitions.now) (assigned card.now.sheet)
        nothing_known (condition_term (condition_tree pool.old condition.now)) 10000)) }
{
    let Ok(term) = term_of(desk.alloc, pool, condition) else {
        return Err(NoMemory);
    };
    let Ok(sheet) = sheet_of(desk.alloc, pool.keys(), card.sheet.as_slice()) else {
        return Err(NoMemory);
    };
    verdict_of(desk.alloc, pool, desk.definitions, term, &sheet)
}

/// What the condition that a card names comes to by the values that the card gives.
fn tried(desk: &Desk, pool: &mut TermPool, card: &TryCard) -> Result<Verdict, NoMemory>
    requires conditions { All (IsConditionIn pool.old) desk.now.conditions.now }
    requires places { ArePlacesOf desk.now.conditions.now desk.now.places.now }
    requires added { AreAdded pool.old desk.now.definitions.now }
    ensures grows { Grows pool.old pool.new }
    ensures tried { IfOk result (λ v. v ≡ tried (functions_of pool.old desk.now.definitions.now)
        (named card.now.lemma (map (condition_tree pool.old) desk.now.conditions.now))
        card.now.sheet) }
{
    let Ok(name) = lemma_of(desk.alloc, card) else {
        return Err(NoMemory);
    };
    let Some(condition) = desk.places.condition(desk.conditions, &name) else {
        return Ok(Verdict::Unknown);
    };
    tried_condition(desk, pool, condition, card)
}

/// Puts the line of a card behind a text.
fn put_line(text: &mut Vec<u8>, number: u64, verdict: Verdict) -> Result<(), NoMemory>
    ensures { OnOk result (text.new.items ≡ text.old.items ++ line_of number verdict) }
{
    put(text, b"TRY ")?;
    put_number(text, number)?;
    put(text, b" ")?;
    put(text, verdict.word())?;
    put(text, b"\n")
}

/// Puts the lines of cards behind a text.
fn put_lines(
    desk: &Desk,
    pool: &mut TermPool,
    tries: &[TryCard],
    text: &mut Vec<u8>,
) -> Result<(), NoMemory>
    requires conditions { All (IsConditionIn pool.old) desk.now.conditions.now }
    requires places { ArePlacesOf desk.now.conditions.now desk.now.places.now }
    requires added { AreAdded pool.old desk.now.definitions.now }
    ensures { OnOk result (text.new.items ≡ text.old.items ++ try_text
        (functions_of pool.old desk.now.definitions.now) (map (condition_tree pool.old)
        desk.now.conditions.now) 1 tries.now) }
{
    for done in 0..tries.len() {
        let Ok(verdict) = tried(desk, pool, &tries[done]) else {
            return Err(NoMemory);
        };
        let Ok(()) = put_line(text, done as u64 + 1, verdict) else {
            return Err(NoMemory);
        };
    }
    Ok(())
}

/// The lines of TRY cards, in order: what the condition that each of them names comes to by the values
/// that it gives, with 10,000 turns for each. The conditions and the definitions are of the pool.
pub fn try_text(
    alloc: Global,
    pool: TermPool,
    definitions: &Definitions,
    conditions: &[Condition],
    tries: &[TryCard],
) -> Result<List<u8>, NoMemory>
    requires conditions { All (IsConditionIn pool) conditions.now }
    requires added { AreAdded pool definitions.now }
    ensures { IfOk result (λ text. text ≡ try_text (functions_of pool definitions.now)
        (map (condition_tree pool) conditions.now) 1 tries.now) }
{
    let mut pool = pool;
    let Ok(places) = Places::new(alloc, pool.keys(), conditions) else {
        return Err(NoMemory);
    };
    let desk = Desk {
        alloc,
        definitions,
        conditions,
        places: &places,
    };
    let mut text = Vec::new(alloc);
    let Ok(()) = put_lines(&desk, &mut pool, tries, &mut text) else {
        return Err(NoMemory);
    };
    Ok(List::from_vec(text))
}
