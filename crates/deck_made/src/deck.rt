// The text of a made deck.
ghost use Rattle.std.specs.Prelude.{◌≡◌, ◌≤◌, ◌↔◌, ◌++◌, ◌<◌, codes, Err, IfOk, OnOk};
ghost use Rattle.deck_made.specs.Made.{last_step, made_deck, three_digits, unit_cards};
ghost use Rattle.deck_made.specs.declared.fault.MadeFault.TheVariants.{BadNumber};

use crate::MadeFault;
use edge_io::{List, NoMemory};
use std::alloc::Global;

/// How many units a made deck may have.
const MOST: u64 = 200;

/// Puts bytes behind a text.
fn put(text: &mut Vec<u8>, bytes: &[u8]) -> Result<(), NoMemory>
    ensures { OnOk result (text.new.items ≡ text.old.items ++ bytes.now) }
{
    let Ok(()) = text.extend_from_slice(bytes) else {
        return Err(NoMemory);
    };
    Ok(())
}

/// The number of a unit in three digits.
fn digits(number: u64) -> [u8; 3]
    ensures { result ≡ three_digits number }
{
    [
        b'0' + (number / 100 % 10) as u8,
        b'0' + (number / 10 % 10) as u8,
        b'0' + (number % 10) as u8,
    ]
}

/// Puts the card on which the loop of a unit ends.
fn put_last_step(text: &mut Vec<u8>, number: u64) -> Result<(), NoMemory>
    requires { 1 ≤ number }
    ensures { OnOk result (text.new.items ≡ text.old.items ++ last_step number) }
{
    if number == 1 {
        return put(text, b"   20 K = N\n");
    }
    put(text, b"   20 CALL U")?;
    put(text, &digits(number - 1))?;
    put(text, b"(N)\n")
}

/// Puts the cards of a unit.
fn put_unit(text: &mut Vec<u8>, number: u64) -> Result<(), NoMemory>
    requires { 1 ≤ number }
    ensures { OnOk result (text.new.items ≡ text.old.items ++ unit_cards number) }
{
    put(text, b"      SUBROUTINE U")?;
    put(text, &digits(number))?;
    put(
        text,
        b"(N)\n      COMMON /BOX/ K\nC$ INPUT (DEFINED N) (ZLEQ 1 N) (ZLEQ N 100)\nC$ OUTPUT (EQUAL K N)\n      I = 0\nC$ ASSERT (DEFINED I) (ZLEQ 0 I) (ZLEQ I N) CLOCK (ZDIFF N I)\n   10 IF (I .GE. N) GO TO 20\n      I = I + 1\n      GO TO 10\n",
    )?;
    put_last_step(text, number)?;
    put(text, b"      RETURN\n      END\n")
}

/// The deck of n units: each counts up to its dummy, and each but the first calls the unit before it.
/// `BadNumber` answers exactly that n is not from 1 to 200, and then memory is not asked for.
/// `NoMemory` answers that memory was wanted and not had.
pub fn made(alloc: Global, n: u64) -> Result<List<u8>, MadeFault>
    ensures text { IfOk result (λ text. text ≡ made_deck n) }
    ensures number { (result ≡ Err BadNumber) ↔ ¬ ((1 ≤ n) × (n ≤ 200)) }
{
    if n < 1 || n > MOST {
        return Err(MadeFault::BadNumber);
    }
    let mut text = Vec::new(alloc);
    for number in 1..n + 1 {
        put_unit(&mut text, number)?;
    }
    Ok(List::from_vec(text))
}
