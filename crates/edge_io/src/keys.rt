// The keys of hashes.
ghost use Rattle.std.specs.Prelude.{◌≡◌};
ghost use Rattle.edge_io.specs.Seeds.{keyed_by_bytes};
ghost use Rattle.edge_io.specs.Hashing.{keyed};

use crate::hashing::KeyedHasher;
use std::hash::{BuildHasher, DefaultHasher, Hasher};

/// Keys of hashes. A table that is made with them puts its entries where only the keys tell. Where they come of all bytes
/// of an input, nobody can choose names in the input that share a place. No answer of a table depends on them.
#[derive(Clone, Copy)]
pub struct Keys {
    /// A hasher that has the keys and has taken nothing.
    keyed: KeyedHasher,
}

impl Keys {
    /// These two keys.
    pub fn new(key0: u64, key1: u64) -> Keys
        ensures { result.keyed ≡ keyed key0 key1 }
    {
        Keys {
            keyed: KeyedHasher::new(key0, key1),
        }
    }

    /// The keys of some bytes: two hashes of them all by SipHash. Each of the bytes counts.
    pub fn of(bytes: &[u8]) -> Keys
        ensures { result.keyed ≡ keyed_by_bytes bytes.now }
    {
        let mut state = DefaultHasher::new();
        state.write(bytes);
        let key0 = state.finish();
        state.write_u8(255);
        Keys::new(key0, state.finish())
    }
}

impl BuildHasher for Keys {
    type Hasher = KeyedHasher;

    ghost build_hasher = { λ k. k.keyed };

    fn build_hasher(&self) -> KeyedHasher {
        self.keyed
    }
}
