// Sums of weights, as far as the cap.
ghost use Rattle.std.specs.Prelude.{◌≡◌, ◌+◌, sum};
ghost use Rattle.weight_caps.specs.Capped.{capped};

/// The cap: a weight of so much or more is told as so much. It is above each limit of sizes.
pub const CAP: u32 = 2_000_001;

/// The sum of two weights, capped.
pub fn plus(first: u32, second: u32) -> u32
    ensures { result ≡ capped (first + second) }
{
    let all = first.saturating_add(second);
    if all < CAP {
        return all;
    }
    CAP
}

/// The sum of weights, capped.
pub fn sum_of(weights: &[u32]) -> u32
    ensures { result ≡ capped (sum weights.now) }
{
    let mut all: u32 = 0;
    for weight in weights {
        all = plus(all, *weight);
    }
    all
}
