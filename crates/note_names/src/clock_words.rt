// The word CLOCK in a text.
ghost use Rattle.std.specs.Prelude.{◌≡◌, length};
ghost use Rattle.formula.specs.NextToken.{token_of};
ghost use Rattle.fort_notes.specs.Judging.{clocks, is_clock};

use formula::{Token, is_same, next_token};

// Whether a token is the word CLOCK.
fn is_clock(token: Token<'_>) -> bool
    ensures { result ≡ is_clock (token_of token.entry) }
{
    match token {
        Token::Atom(atom) => is_same(b"CLOCK", atom),
        _ => false,
    }
}

#[tactic(auto, using(crate::proofs::CountedClocks::one_more, crate::proofs::CountedClocks::one_other, crate::proofs::CountedClocks::no_more))]
/// How often CLOCK stands in a text.
pub fn clocks(text: &[u8]) -> usize
    ensures { result ≡ clocks text.now }
{
    let mut found = 0;
    let mut at = 0;
    while let Some(lexeme) = next_token(text, at) {
        at = lexeme.after;
        if is_clock(lexeme.token) {
            found += 1;
        }
    }
    found
}
