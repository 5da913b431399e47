// The arguments of nodes.
ghost use Rattle.std.specs.Prelude.{◌≡◌, ◌<◌, ◌≤◌, ◌↔◌, [], ◌∷◌, ◌++◌, length, IsTrue, IsSome, IfSome, IsOk, IfOk, OnOk, OnErr};

use crate::TermId;
use edge_io::NoMemory;
use std::alloc::Global;
use std::hash::{Hash, Hasher};
use std::marker::Model;

/// Up to four ids in place.
#[derive(Debug, Drop)]
struct Few {
    len: u8,
    items: [TermId; 4],
}

impl Model for Few {
    ghost use Rattle.std.specs.Prelude.{List, ◌≤◌, take};
    ghost use Rattle.formula.specs.declared.node.TermId.{TermId};

    ghost Value = { List TermId };

    ghost view = { λ f. take f.len f.items };

    ghost invariant = { λ f. f.len ≤ 4 };
}

impl Few {
    /// These ids, where they are four at most.
    fn new(ids: &[TermId]) -> Option<Few>
        ensures some { IsSome result ↔ (length ids.now ≤ 4) }
        ensures value { IfSome result (λ few. few ≡ ids.now) }
    {
        if ids.len() > 4 {
            return None;
        }
        let mut items = [TermId { place: 0 }; 4];
        items[..ids.len()].copy_from_slice(ids);
        Some(Few {
            len: ids.len() as u8,
            items,
        })
    }

    /// No ids.
    fn empty() -> Few
        ensures { result ≡ [] }
    {
        Few {
            len: 0,
            items: [TermId { place: 0 }; 4],
        }
    }

    /// Adds an id at the end, where there is room.
    fn push(&mut self, id: TermId) -> bool
        ensures room { IsTrue result ↔ (length self.old < 4) }
        ensures pushed { IsTrue result → self.new ≡ self.old ++ id ∷ [] }
        ensures full { ¬ IsTrue result → self.new ≡ self.old }
    {
        let place = self.len as usize;
        if place >= 4 {
            return false;
        }
        self.items[place] = id;
        self.len += 1;
        true
    }

    fn as_slice(&self) -> &[TermId]
        ensures { result.now ≡ self.now }
    {
        &self.items[..self.len as usize]
    }
}

#[derive(Debug, Drop)]
enum Held {
    InPlace(Few),
    OnHeap(Vec<TermId>),
}

/// The ids of arguments, up to four in place and more on the heap, which contracts see as the list
/// of them.
#[derive(Debug, Drop)]
pub struct Args {
    held: Held,
}

impl Model for Args {
    ghost use Rattle.std.specs.Prelude.{List};
    ghost use Rattle.formula.specs.declared.node.TermId.{TermId};
    ghost use Rattle.formula.specs.Args.{held_ids, IsHeld};

    ghost Value = { List TermId };

    ghost view = { λ a. held_ids a.held };

    ghost invariant = { λ a. IsHeld a.held };
}

impl Args {
    /// A copy of some ids. It takes memory only where they are more than four.
    pub fn new(alloc: Global, ids: &[TermId]) -> Result<Args, NoMemory>
        ensures ok { IfOk result (λ a. a ≡ ids.now) }
        ensures succeeds { length ids.now ≤ 4 → IsOk result }
    {
        match Few::new(ids) {
            Some(few) => Ok(Args {
                held: Held::InPlace(few),
            }),
            None => {
                let Ok(items) = Vec::from_slice(alloc, ids) else {
                    return Err(NoMemory);
                };
                Ok(Args {
                    held: Held::OnHeap(items),
                })
            }
        }
    }

    /// No ids. It takes no memory.
    pub fn empty() -> Args
        ensures { result ≡ [] }
    {
        Args {
            held: Held::InPlace(Few::empty()),
        }
    }

    /// Adds an id at the end. It takes memory only where there are four or more. At `NoMemory` the
    /// ids are as before.
    pub fn push(&mut self, alloc: Global, id: TermId) -> Result<(), NoMemory>
        ensures ok { OnOk result (self.new ≡ self.old ++ id ∷ []) }
        ensures unchanged { OnErr result (self.new ≡ self.old) }
        ensures succeeds { length self.old < 4 → IsOk result }
    {
        match &mut self.held {
            Held::InPlace(few) => {
                if few.push(id) {
                    return Ok(());
                }
                let Ok(mut items) = Vec::from_slice(alloc, few.as_slice()) else {
                    return Err(NoMemory);
                };
                if items.push(id).is_err() {
                    return Err(NoMemory);
                }
                self.held = Held::OnHeap(items);
                Ok(())
            }
            Held::OnHeap(items) => {
                if items.push(id).is_err() {
                    return Err(NoMemory);
                }
                Ok(())
            }
        }
    }

    /// The ids of a `Vec`. Up to four move in place, and its memory is given back.
    pub fn from_vec(ids: Vec<TermId>) -> Args
        ensures { result ≡ ids.items }
    {
        match Few::new(ids.as_slice()) {
            Some(few) => Args {
                held: Held::InPlace(few),
            },
            None => Args {
                held: Held::OnHeap(ids),
            },
        }
    }

    /// The ids, in order.
    pub fn as_slice(&self) -> &[TermId]
        ensures { result.now ≡ self.now }
    {
        match &self.held {
            Held::InPlace(few) => few.as_slice(),
            Held::OnHeap(items) => items.as_slice(),
        }
    }
}

impl PartialEq for Args {
    ghost use Rattle.std.specs.Cmp.Lexicographic.{pointwise, lists_per};
    ghost use Rattle.formula.specs.contracts.node.TermIdPartialEq.TheImpl.{ghosts as id_eq};
    ghost use Rattle.formula.specs.contracts.node.TermIdPartialEq.TheImpl.Laws.{laws-law as id_laws};

    ghost eq = { pointwise id_eq.eq };

    ghost laws = { lists_per id_laws };

    fn eq(&self, other: &Args) -> bool {
        self.as_slice() == other.as_slice()
    }
}

impl Eq for Args {
    ghost use Rattle.std.specs.Cmp.Lexicographic.{lists_equiv};
    ghost use Rattle.formula.specs.contracts.node.TermIdEq.TheImpl.Laws.{laws-law as id_laws};

    ghost laws = { lists_equiv id_laws };
}

impl Hash for Args {
    ghost use Rattle.std.specs.Hash as fed;
    ghost use Rattle.std.specs.Hash.{items_Alike};
    ghost use Rattle.formula.specs.contracts.node.TermIdHash.TheImpl.{ghosts as id_hash};
    ghost use Rattle.formula.specs.contracts.node.TermIdHash.TheImpl.Laws.{respects_eq-law as id_fed};

    ghost hash_input = { fed.slice id_hash.hash_input };

    ghost respects_eq = { (items_Alike (record { fed = id_fed })).fed };

    fn hash<H: Hasher>(&self, state: &mut H) {
        self.as_slice().hash(state);
    }
}
