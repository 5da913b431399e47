// A text as tokens.
ghost use Rattle.std.specs.Prelude.{◌≡◌, ◌≢◌, ◌<◌, ◌≤◌, true, [], ◌∷◌, length, drop, slice_range, slice_index_or, IfNone, IfSome};
ghost use Rattle.formula.specs.Tokens.{is_atom_byte, atom, lexeme, tokens_from};
ghost use Rattle.formula.specs.NextToken.{IsNext};

/// A token: a bracket, or an atom, which ends at a blank or a bracket.
#[derive(Clone, Copy, Debug, PartialEq, Eq)]
pub enum Token<'a> {
    Opening,
    Closing,
    Atom(&'a [u8]),
}

/// A token, and the number of bytes of the text up to its end.
#[derive(Clone, Copy, Debug, PartialEq, Eq)]
pub struct Lexeme<'a> {
    pub token: Token<'a>,
    pub after: usize,
}

fn is_atom_byte(b: u8) -> bool
    ensures { result ≡ is_atom_byte b }
{
    b != b' ' && b != b'(' && b != b')'
}

#[tactic(auto, using(crate::proofs::TokenSteps::blank_passed))]
// The place of the first byte from `at` on that is no blank.
fn after_blanks(text: &[u8], at: usize) -> usize
    requires { at ≤ length text.now }
    ensures low { at ≤ result }
    ensures high { result ≤ length text.now }
    ensures found { result < length text.now → slice_index_or text.now result 0 ≢ 32 }
    ensures same { tokens_from at [] (drop at text.now) ≡ tokens_from result [] (drop result text.now) }
{
    let mut end = at;
    while end < text.len() && text[end] == b' ' {
        end += 1;
    }
    end
}

#[tactic(auto, using(crate::proofs::TokenSteps::byte_first, crate::proofs::TokenSteps::byte_next, crate::proofs::TokenSteps::atom_over, crate::proofs::TokenSteps::atom_last))]
// The end of the atom whose first byte stands at `start`.
fn atom_end(text: &[u8], start: usize) -> usize
    requires within { start < length text.now }
    requires first { is_atom_byte (slice_index_or text.now start 0) ≡ true }
    ensures low { start < result }
    ensures high { result ≤ length text.now }
    ensures same { tokens_from start [] (drop start text.now) ≡ lexeme
        (atom (slice_range text.now start result)) result ∷ tokens_from result []
        (drop result text.now) }
{
    let mut end = start + 1;
    while end < text.len() && is_atom_byte(text[end]) {
        end += 1;
    }
    end
}

#[tactic(auto, using(crate::proofs::TokenSteps::none_left, crate::proofs::TokenSteps::opening_next, crate::proofs::TokenSteps::closing_next, crate::proofs::TokenSteps::atom_byte))]
/// The first token behind the first `at` bytes of a text: `None` where only blanks are left.
pub fn next_token(text: &[u8], at: usize) -> Option<Lexeme<'_>>
    requires { at ≤ length text.now }
    ensures none { IfNone result (tokens_from at [] (drop at text.now) ≡ []) }
    ensures some { IfSome result (λ p. IsNext text.now at p) }
{
    let start = after_blanks(text, at);
    if start >= text.len() {
        return None;
    }
    match text[start] {
        b'(' => Some(Lexeme {
            token: Token::Opening,
            after: start + 1,
        }),
        b')' => Some(Lexeme {
            token: Token::Closing,
            after: start + 1,
        }),
        _ => {
            let after = atom_end(text, start);
            Some(Lexeme {
                token: Token::Atom(&text[start..after]),
                after,
            })
        }
    }
}
