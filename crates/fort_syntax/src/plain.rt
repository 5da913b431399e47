// Plain data: what is copied whole, and compared as a whole.
ghost use Rattle.std.specs.Prelude.{◌≡◌, ◌↔◌, IfOk, IsTrue};

use crate::{Dim, FunctionName, Name};
use edge_io::{Boxed, List, NoMemory};
use formula::TermId;
use std::alloc::Global;

/// Values that can be made once more, and told from each other.
pub trait Plain: Drop {
    /// An equal value, or want of memory.
    fn copied(&self, alloc: Global) -> Result<Self, NoMemory>
        ensures { IfOk result (λ c. c ≡ self.now) };

    /// Whether the two are one value.
    fn is_same(&self, other: &Self) -> bool
        ensures { IsTrue result ↔ (self.now ≡ other.now) };
}

/// A value on the heap, or want of memory.
pub(crate) fn boxed<X: Drop>(alloc: Global, value: X) -> Result<Boxed<X>, NoMemory>
    ensures { IfOk result (λ b. b ≡ value) }
{
    let Ok(made) = Boxed::new(alloc, value) else {
        return Err(NoMemory);
    };
    Ok(made)
}

impl<X: Plain> Plain for List<X> {
    fn copied(&self, alloc: Global) -> Result<List<X>, NoMemory> {
        let mut all = Vec::new(alloc);
        for x in self.as_slice() {
            let x = x.copied(alloc)?;
            if all.push(x).is_err() {
                return Err(NoMemory);
            }
        }
        Ok(List::from_vec(all))
    }

    fn is_same(&self, other: &List<X>) -> bool {
        let xs = self.as_slice();
        let ys = other.as_slice();
        if xs.len() != ys.len() {
            return false;
        }
        for i in 0..xs.len() {
            if !xs[i].is_same(&ys[i]) {
                return false;
            }
        }
        true
    }
}

impl Plain for u8 {
    fn copied(&self, _: Global) -> Result<u8, NoMemory> {
        Ok(*self)
    }

    fn is_same(&self, other: &u8) -> bool {
        *self == *other
    }
}

impl Plain for u32 {
    fn copied(&self, _: Global) -> Result<u32, NoMemory> {
        Ok(*self)
    }

    fn is_same(&self, other: &u32) -> bool {
        *self == *other
    }
}

impl Plain for Name {
    fn copied(&self, _: Global) -> Result<Name, NoMemory> {
        Ok(*self)
    }

    fn is_same(&self, other: &Name) -> bool {
        *self == *other
    }
}

impl Plain for Dim {
    fn copied(&self, _: Global) -> Result<Dim, NoMemory> {
        Ok(*self)
    }

    fn is_same(&self, other: &Dim) -> bool {
        *self == *other
    }
}

impl Plain for FunctionName {
    fn copied(&self, _: Global) -> Result<FunctionName, NoMemory> {
        Ok(*self)
    }

    fn is_same(&self, other: &FunctionName) -> bool {
        *self == *other
    }
}

impl Plain for TermId {
    fn copied(&self, _: Global) -> Result<TermId, NoMemory> {
        Ok(*self)
    }

    fn is_same(&self, other: &TermId) -> bool {
        *self == *other
    }
}
