// Starts are those of walks.
ghost use Rattle.start_terms.specs.Starts.{DimFactsAreThoseOfWalks, StartedAreAtStart};

/// Where names stood for what they do at the entry, and those were started that the unit smashes,
/// they stand for what they do at an ASSERT from which a path starts. It does nothing.
pub fn started_are_at_start()
    ensures { StartedAreAtStart }
{}

/// What is taken of dimensions is what walks in the sense of terms take. It does nothing.
pub fn dim_facts_are_those_of_walks()
    ensures { DimFactsAreThoseOfWalks }
{}
