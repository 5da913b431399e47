// Weights of small decks.
ghost use Rattle.path_sizes.specs.WeightRows.{WeightsOfInc, WeightsOfPowers, WeightsOfLoops, WeightsOfCalls};

/// One is added to I: three conditions.
pub fn weights_of_inc()
    ensures { WeightsOfInc }
{}

/// Intrinsic functions, a remainder and the products of a power.
pub fn weights_of_powers()
    ensures { WeightsOfPowers }
{}

/// DOs in both dialects.
pub fn weights_of_loops()
    ensures { WeightsOfLoops }
{}

/// Two calls.
pub fn weights_of_calls()
    ensures { WeightsOfCalls }
{}
