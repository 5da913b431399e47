// 36: the clocks of a unit.
ghost use Rattle.std.specs.Prelude.{◌≡◌, None};
ghost use Rattle.do_ranges.specs.Clocks.{is_ill_clock, lesser, least_ill, clock_fault, parts_of_first};

use fort_notes::AssertSpec;
use fort_syntax::{Fault, Rule};

fn is_ill_clock(parts: usize, spec: &AssertSpec) -> bool
    ensures { result ≡ is_ill_clock parts spec.now }
{
    let count = spec.clock.as_slice().len();
    count == 0 || count > 4 || count != parts
}

fn lesser(best: Option<u32>, card: u32) -> u32
    ensures { result ≡ lesser best card }
{
    match best {
        Some(best) => best.min(card),
        None => card,
    }
}

fn parts_of_first(asserts: &[AssertSpec]) -> usize
    ensures { result ≡ parts_of_first asserts.now }
{
    match asserts.first() {
        Some(first) => first.clock.as_slice().len(),
        None => 0,
    }
}

fn least_ill(parts: usize, asserts: &[AssertSpec]) -> Option<u32>
    ensures { result ≡ least_ill parts asserts.now None }
{
    let mut best = None;
    for spec in asserts {
        if is_ill_clock(parts, spec) {
            best = Some(lesser(best, spec.card));
        }
    }
    best
}

/// The ill clock on the least card.
pub(crate) fn bad_clock(asserts: &[AssertSpec]) -> Option<Fault>
    ensures { result ≡ clock_fault asserts.now }
{
    match least_ill(parts_of_first(asserts), asserts) {
        Some(card) => Some(Fault {
            rule: Rule::ClockLength,
            card,
        }),
        None => None,
    }
}
