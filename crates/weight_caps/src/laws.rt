// What capped weights are to weights.
ghost use Rattle.weight_caps.specs.Laws.{CappedWeightsAreWeights, LoadsAreThoseOfParts};

/// Sums of capped weights, and terms of notes whose names have capped weights, weigh as much as
/// those of the weights themselves, as far as the cap. It does nothing.
pub fn capped_weights_are_weights()
    ensures { CappedWeightsAreWeights }
{}

/// What the functions of a load do is what parts of a path do to its exact weights, as far as the
/// cap. It does nothing.
pub fn loads_are_those_of_parts()
    ensures { LoadsAreThoseOfParts }
{}
