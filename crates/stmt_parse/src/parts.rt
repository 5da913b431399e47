// Operators.
ghost use Rattle.std.specs.Prelude.{◌≡◌, option_map};
ghost use Rattle.fort_syntax.specs.Spelled.{tightness};
ghost use Rattle.stmt_parse.specs.Tokens.{power_at, sign_at, relation_at, logical_at, joint_at, strength, left_strength, right_strength};

use crate::Joint;
use crate::tokens::begins;
use fort_syntax::{BinOp, RelOp};

// `**` and its exponent at the beginning of a text.
pub(crate) fn power_at(text: &[u8]) -> Option<(u8, &[u8])>
    ensures { option_map (λ r. (r.0, r.1.now)) result ≡ power_at text.now }
{
    if !begins(text, b"**") || text.len() < 3 || text[2] < b'1' || text[2] > b'9' {
        return None;
    }
    Some((text[2] - b'0', &text[3..]))
}

// `+`, `-`, `*` or `/`
fn sign_at(text: &[u8]) -> Option<(Joint, &[u8])>
    ensures { option_map (λ r. (r.0, r.1.now)) result ≡ sign_at text.now }
{
    let sign = match text {
        [b'+', ..] => BinOp::Add,
        [b'-', ..] => BinOp::Sub,
        [b'*', ..] => BinOp::Mul,
        [b'/', ..] => BinOp::Div,
        _ => return None,
    };
    Some((Joint::Bin(sign), &text[1..]))
}

// A relation.
fn relation_at(text: &[u8]) -> Option<(Joint, &[u8])>
    ensures { option_map (λ r. (r.0, r.1.now)) result ≡ relation_at text.now }
{
    if begins(text, b".LT.") {
        return Some((Joint::Rel(RelOp::Lt), &text[4..]));
    }
    if begins(text, b".LE.") {
        return Some((Joint::Rel(RelOp::Le), &text[4..]));
    }
    if begins(text, b".EQ.") {
        return Some((Joint::Rel(RelOp::Eq), &text[4..]));
    }
    if begins(text, b".NE.") {
        return Some((Joint::Rel(RelOp::Ne), &text[4..]));
    }
    if begins(text, b".GE.") {
        return Some((Joint::Rel(RelOp::Ge), &text[4..]));
    }
    if begins(text, b".GT.") {
        return Some((Joint::Rel(RelOp::Gt), &text[4..]));
    }
    None
}

// `.AND.` or `.OR.`
fn logical_at(text: &[u8]) -> Option<(Joint, &[u8])>
    ensures { option_map (λ r. (r.0, r.1.now)) result ≡ logical_at text.now }
{
    if begins(text, b".AND.") {
        return Some((Joint::And, &text[5..]));
    }
    if begins(text, b".OR.") {
        return Some((Joint::Or, &text[4..]));
    }
    None
}

// The operator at the beginning of a text.
pub(crate) fn joint_at(text: &[u8]) -> Option<(Joint, &[u8])>
    ensures { option_map (λ r. (r.0, r.1.now)) result ≡ joint_at text.now }
{
    if let Some(found) = sign_at(text) {
        return Some(found);
    }
    if let Some(found) = relation_at(text) {
        return Some(found);
    }
    logical_at(text)
}

pub(crate) fn tightness(o: BinOp) -> u8
    ensures { result ≡ tightness o }
{
    match o {
        BinOp::Add | BinOp::Sub => 4,
        BinOp::Mul | BinOp::Div => 5,
    }
}

// How tightly an operator binds.
pub(crate) fn strength(joint: Joint) -> u8
    ensures { result ≡ strength joint }
{
    match joint {
        Joint::Or => 0,
        Joint::And => 1,
        Joint::Rel(_) => 3,
        Joint::Bin(o) => tightness(o),
    }
}

// How tightly its left part must be bound.
pub(crate) fn left_strength(joint: Joint) -> u8
    ensures { result ≡ left_strength joint }
{
    match joint {
        Joint::Or => 0,
        Joint::And => 1,
        Joint::Rel(_) => 4,
        Joint::Bin(o) => tightness(o),
    }
}

// How tightly its right part must be bound.
pub(crate) fn right_strength(joint: Joint) -> u8
    ensures { result ≡ right_strength joint }
{
    match joint {
        Joint::Or => 1,
        Joint::And => 2,
        Joint::Rel(_) => 4,
        Joint::Bin(o) => tightness(o) + 1,
    }
}
