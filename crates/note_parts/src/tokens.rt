// The first token of a text.
ghost use Rattle.std.specs.Prelude.{◌≡◌};
ghost use Rattle.fort_notes.specs.Parts.{parsed, word, is_opening, is_closing, is_word, begins, is_over, sign};
ghost use Rattle.formula.specs.NextToken.{token_of};
ghost use Rattle.note_parts.specs.Answers.{Finds, Gives};

use crate::Lack;
use formula::{Token, is_same, next_token};

/// The atom that begins a text, and the text behind it.
pub fn word(text: &[u8]) -> Option<(&[u8], &[u8])>
    ensures { Finds (λ r. parsed r.0.now r.1.now) result (word text.now) }
{
    let lexeme = next_token(text, 0)?;
    match lexeme.token {
        Token::Atom(atom) => Some((atom, &text[lexeme.after..])),
        _ => None,
    }
}

/// Whether no token is left.
pub fn is_over(text: &[u8]) -> bool
    ensures { result ≡ is_over text.now }
{
    match next_token(text, 0) {
        Some(_) => false,
        None => true,
    }
}

/// Whether an opening bracket begins a text.
pub fn begins_opening(text: &[u8]) -> bool
    ensures { result ≡ begins is_opening text.now }
{
    match next_token(text, 0) {
        Some(lexeme) => matches!(lexeme.token, Token::Opening),
        None => false,
    }
}

/// Whether a closing bracket begins a text.
pub fn begins_closing(text: &[u8]) -> bool
    ensures { result ≡ begins is_closing text.now }
{
    match next_token(text, 0) {
        Some(lexeme) => matches!(lexeme.token, Token::Closing),
        None => false,
    }
}

// Whether a token is that word.
fn is_word(word: &[u8], token: Token<'_>) -> bool
    ensures { result ≡ is_word word.now (token_of token.entry) }
{
    match token {
        Token::Atom(atom) => is_same(word, atom),
        _ => false,
    }
}

/// Whether a word begins a text.
pub fn begins_word(text: &[u8], word: &[u8]) -> bool
    ensures { result ≡ begins (is_word word.now) text.now }
{
    match next_token(text, 0) {
        Some(lexeme) => is_word(word, lexeme.token),
        None => false,
    }
}

/// The text behind the opening bracket that begins it.
pub fn opening(text: &[u8]) -> Result<&[u8], Lack>
    ensures { Gives (λ r. parsed tt r.now) result (sign is_opening text.now) }
{
    let Some(lexeme) = next_token(text, 0) else {
        return Err(Lack::Form);
    };
    match lexeme.token {
        Token::Opening => Ok(&text[lexeme.after..]),
        _ => Err(Lack::Form),
    }
}

/// The text behind the closing bracket that begins it.
pub fn closing(text: &[u8]) -> Result<&[u8], Lack>
    ensures { Gives (λ r. parsed tt r.now) result (sign is_closing text.now) }
{
    let Some(lexeme) = next_token(text, 0) else {
        return Err(Lack::Form);
    };
    match lexeme.token {
        Token::Closing => Ok(&text[lexeme.after..]),
        _ => Err(Lack::Form),
    }
}

/// The text behind the word that begins it.
pub fn sign_word<'a>(text: &'a [u8], word: &[u8]) -> Result<&'a [u8], Lack>
    ensures { Gives (λ r. parsed tt r.now) result (sign (is_word word.now) text.now) }
{
    let Some(lexeme) = next_token(text, 0) else {
        return Err(Lack::Form);
    };
    if !is_word(word, lexeme.token) {
        return Err(Lack::Form);
    }
    Ok(&text[lexeme.after..])
}
