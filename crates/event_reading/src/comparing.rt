// A text that is compared, piece by piece.
ghost use Rattle.std.specs.Prelude.{◌≡◌, ◌&&◌, decimal};
ghost use Rattle.std.specs.Fmt.{signed_decimal};
ghost use Rattle.event_reading.specs.Matches.{Matches, is_nothing};

use crate::tokens::after;
use itoa::Buffer;

/// What is left of a text, and whether all pieces so far stood there. After one that did not,
/// nothing is compared.
#[derive(Clone, Copy, Debug)]
pub struct Comparing<'a> {
    pub rest: &'a [u8],
    pub same: bool,
}

impl<'a> Comparing<'a> {
    /// Passes a piece.
    pub fn put(&mut self, piece: &[u8])
        ensures { Matches self.old self.new piece.now }
    {
        if !self.same {
            return;
        }
        match after(self.rest, piece) {
            Some(rest) => self.rest = rest,
            None => self.same = false,
        }
    }

    /// Whether all pieces stood there, and nothing is left.
    pub fn is_done(&self) -> bool
        ensures { result ≡ (self.now.same && is_nothing self.now.rest.now) }
    {
        if !self.same {
            return false;
        }
        match self.rest {
            [] => true,
            _ => false,
        }
    }

    /// Passes a number in decimal digits.
    pub fn put_number(&mut self, n: u64)
        ensures { Matches self.old self.new (decimal n) }
    {
        let mut buffer = Buffer::new();
        let text = buffer.format(n);
        self.put(text.as_bytes());
    }

    /// Passes a signed number: its decimal digits, behind `-` where it is below 0.
    pub fn put_signed(&mut self, n: i128)
        ensures { Matches self.old self.new (signed_decimal n) }
    {
        let mut buffer = Buffer::new();
        let text = buffer.format(n);
        self.put(text.as_bytes());
    }
}
