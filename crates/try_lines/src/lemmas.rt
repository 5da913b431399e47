// Conditions by name.
ghost use Rattle.std.specs.Prelude.{◌≡◌, ◌++◌, ◌<◌, [], length, option_copied, IfOk, IfSome, OnOk};
ghost use Rattle.try_lines.specs.Lemmas.{ArePlacesOf, Tells, condition_at, first_named, name_of, told};

use edge_io::{Keys, List, NoMemory};
use fort_notes::TryCard;
use fort_syntax::Condition;
use indexmap::IndexMap;
use reply_lines::{put, put_number};
use std::alloc::Global;
use std::marker::Model;

/// Puts the name of a condition behind a text.
fn put_name(text: &mut Vec<u8>, condition: &Condition) -> Result<(), NoMemory>
    ensures { OnOk result (text.new.items ≡ text.old.items ++ name_of condition.now) }
{
    put(text, condition.unit.as_bytes())?;
    put(text, b"-")?;
    put_number(text, condition.path as u64)?;
    put(text, b"-")?;
    put_number(text, condition.check as u64)
}

/// The name of a condition.
fn name(alloc: Global, condition: &Condition) -> Result<List<u8>, NoMemory>
    ensures { IfOk result (λ name. name ≡ name_of condition.now) }
{
    let mut text = Vec::new(alloc);
    let Ok(()) = put_name(&mut text, condition) else {
        return Err(NoMemory);
    };
    Ok(List::from_vec(text))
}

/// The name that a card gives.
pub(crate) fn lemma_of(alloc: Global, card: &TryCard) -> Result<List<u8>, NoMemory>
    ensures { IfOk result (λ name. name ≡ card.now.lemma) }
{
    let Ok(name) = Vec::from_slice(alloc, card.lemma.as_bytes()) else {
        return Err(NoMemory);
    };
    Ok(List::from_vec(name))
}

/// The places of conditions by their names, which contracts see as the list of the pairs. Where two have
/// one name, the first of them counts.
#[derive(Drop)]
pub(crate) struct Places {
    map: IndexMap<List<u8>, usize, Keys>,
}

impl Model for Places {
    ghost use Rattle.std.specs.Prelude.{List, ℕ};

    ghost Value = { List (List ℕ × ℕ) };

    ghost view = { λ t. t.map.entries };
}

impl Places {
    fn empty(alloc: Global, keys: Keys) -> Places
        ensures { result ≡ [] }
    {
        Places {
            map: IndexMap::with_hasher(alloc, keys),
        }
    }

    fn tell(&mut self, name: List<u8>, place: usize) -> Result<(), NoMemory>
        ensures { OnOk result (Tells self.old self.new name place) }
    {
        match self.map.insert(name, place) {
            Ok(_) => Ok(()),
            Err(_) => Err(NoMemory),
        }
    }

    /// The places of some conditions, in time for them. No answer depends on the keys.
    pub(crate) fn new(
        alloc: Global,
        keys: Keys,
        conditions: &[Condition],
    ) -> Result<Places, NoMemory>
        ensures { IfOk result (ArePlacesOf conditions.now) }
    {
        let mut places = Places::empty(alloc, keys);
        let mut left = conditions.len();
        while left > 0 {
            left -= 1;
            let name = name(alloc, &conditions[left])?;
            places.tell(name, left)?;
        }
        Ok(places)
    }

    fn told(&self, name: &List<u8>) -> Option<usize>
        ensures { result ≡ told self.now name.now }
    {
        self.map.get(name).copied()
    }

    fn place(&self, conditions: &[Condition], name: &List<u8>) -> Option<usize>
        requires { ArePlacesOf conditions.now self.now }
        ensures within { IfSome result (λ i. i < length conditions.now) }
        ensures entry { condition_at conditions.now result ≡ first_named name.now conditions.now }
    {
        self.told(name)
    }

    /// The first of the conditions with a name.
    pub(crate) fn condition<'a>(
        &self,
        conditions: &'a [Condition],
        name: &List<u8>,
    ) -> Option<&'a Condition>
        requires { ArePlacesOf conditions.now self.now }
        ensures { option_copied result ≡ first_named name.now conditions.now }
    {
        match self.place(conditions, name) {
            Some(place) => conditions.get(place),
            None => None,
        }
    }
}
