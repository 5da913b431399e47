// Laws on the first statements of ways.
ghost use Rattle.shared_fronts.specs.Laws.{FirstsAreShared, FirstsGoBefore};

/// The statements of a way are those that begin within its first steps, so many, and those that
/// begin behind these. It does nothing.
pub fn firsts_go_before()
    ensures { FirstsGoBefore }
{}

/// Before a statement that two ways share both have the same statements, under the same choices. It
/// does nothing.
pub fn firsts_are_shared()
    ensures { FirstsAreShared }
{}
