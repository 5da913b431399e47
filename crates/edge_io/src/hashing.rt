// A hash with two keys.
ghost use Rattle.std.specs.Prelude.{◌≡◌, ◌+◌, ◌≤◌, length};
ghost use Rattle.edge_io.specs.Hashing as hashing;

use std::hash::Hasher;

/// A hasher with two keys. For each eight bytes, and once more at its end, it multiplies by the second key and joins the two halves of the product.
/// Who doesn't know the keys cannot tell which texts come to the same place.
#[derive(Clone, Copy)]
pub struct KeyedHasher {
    /// What the bytes came to that were taken so far; at first the first key.
    state: u64,
    /// The second key.
    factor: u64,
}

impl KeyedHasher {
    /// With these two keys.
    pub(crate) fn new(key0: u64, key1: u64) -> KeyedHasher
        ensures { result ≡ hashing.keyed key0 key1 }
    {
        KeyedHasher {
            state: key0,
            factor: key1,
        }
    }
}

impl Hasher for KeyedHasher {
    ghost write = { hashing.write };

    ghost finish = { hashing.finish };

    #[inline(always)]
    fn finish(&self) -> u64 {
        folded(self.state, self.factor)
    }

    #[inline(always)]
    fn write(&mut self, bytes: &[u8]) {
        let len = bytes.len();
        let mut state = self.state;
        let mut at = 0;
        while len - at > 8 {
            state = folded(state ^ eight_bytes(bytes, at), self.factor);
            at += 8;
        }
        self.state = folded(state ^ last_bytes(bytes, at), self.factor ^ (len as u64));
    }
}

/// The two halves of the product, joined by exclusive or.
#[inline(always)]
fn folded(a: u64, b: u64) -> u64
    ensures { result ≡ hashing.folded a b }
{
    let product = a as u128 * b as u128;
    (product & 0xFFFF_FFFF_FFFF_FFFF) as u64 ^ (product >> 64) as u64
}

/// Four bytes as a number, the first of them lowest.
#[inline(always)]
fn four_bytes(bytes: &[u8], at: usize) -> u64
    requires { at + 4 ≤ length bytes.now }
    ensures { result ≡ hashing.four_bytes bytes.now at }
{
    u32::from_le_bytes([bytes[at], bytes[at + 1], bytes[at + 2], bytes[at + 3]]) as u64
}

/// Eight bytes as a number, the first of them lowest.
#[inline(always)]
fn eight_bytes(bytes: &[u8], at: usize) -> u64
    requires { at + 8 ≤ length bytes.now }
    ensures { result ≡ hashing.eight_bytes bytes.now at }
{
    four_bytes(bytes, at) | four_bytes(bytes, at + 4) << 32
}

/// The bytes from this place on, of which there are at most eight, as one number; some of them may count twice.
#[inline(always)]
fn last_bytes(bytes: &[u8], at: usize) -> u64
    requires { at ≤ length bytes.now }
    ensures { result ≡ hashing.last_bytes bytes.now at }
{
    let len = bytes.len();
    let rest = len - at;
    if rest >= 4 {
        four_bytes(bytes, at) | four_bytes(bytes, len - 4) << 32
    } else if rest > 0 {
        bytes[at] as u64 | (bytes[at + rest / 2] as u64) << 8 | (bytes[len - 1] as u64) << 16
    } else {
        0
    }
}
