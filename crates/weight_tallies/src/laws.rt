// What the tallies of ways are to the weights of paths.
ghost use Rattle.weight_tallies.specs.Laws.{TalliesAreWeights};

/// Behind a way of a unit's graph a load tells how many conditions the path has and what they weigh
/// together, as far as the cap. It does nothing.
pub fn tallies_are_weights()
    ensures { TalliesAreWeights }
{}
