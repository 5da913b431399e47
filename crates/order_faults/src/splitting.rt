// Where a unit ends.
ghost use Rattle.std.specs.Prelude.{◌≡◌, ◌≤◌, ◌∷◌, length, take, drop};
ghost use Rattle.fort_syntax.specs.Units.{segments};
ghost use Rattle.order_faults.specs.Scans.{unit_size};

use fort_syntax::{Class, Line};

/// How many statements stand up to the first END, with it, or in all where there is none.
pub fn unit_size(lines: &[Line]) -> usize
    ensures value { result ≡ unit_size lines.now }
    ensures bound { result ≤ length lines.now }
{
    for i in 0..lines.len() {
        if lines[i].stmt.class() == Class::Ending {
            return i + 1;
        }
    }
    lines.len()
}

/// How many of these statements are the first unit: at least one.
#[tactic(auto, using(crate::proofs::Splits::split, crate::proofs::Splits::some))]
pub fn first_unit(lines: &[Line]) -> usize
    requires some { 1 ≤ length lines.now }
    ensures split { segments lines.now ≡ take result lines.now ∷ segments (drop result lines.now) }
    ensures bound { result ≤ length lines.now }
    ensures some { 1 ≤ result }
{
    unit_size(lines)
}
