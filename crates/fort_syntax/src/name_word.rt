// The word of a name.
ghost use Rattle.std.specs.Prelude.{◌≡◌};

use crate::Name;
use formula::Word;

/// The word with the bytes of a name: each name has one.
pub fn word_of(name: &Name) -> Word
    ensures { result ≡ name.now }
{
    Word::new(name.as_bytes()).unwrap()
}
