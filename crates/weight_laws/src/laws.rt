// What weights are to checks.
ghost use Rattle.weight_laws.specs.Laws.{WeightsHaveChecks};

/// Along each path there are as many weights of conditions as checks. It does nothing.
pub fn weights_have_checks()
    ensures { WeightsHaveChecks }
{}
