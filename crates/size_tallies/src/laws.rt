// What sizes that are told as far as the cap are to the limits.
ghost use Rattle.size_tallies.specs.Laws.{SizesAreTallied, UnitsAreJudged, UnitsFollow};

/// The conditions and weights of the ways through the graph of a unit, added up as far as the cap,
/// are those of its paths. It does nothing.
pub fn sizes_are_tallied()
    ensures { SizesAreTallied }
{}

/// Sizes behind a unit, as far as the cap, tell whether it passes a limit, which is the first that it
/// passes, or is within the limits. It does nothing.
pub fn units_are_judged()
    ensures { UnitsAreJudged }
{}

/// Unit after unit within the limits leads to the program's fault of size at the first unit that
/// passes one, and to a program within the limits where none does. It does nothing.
pub fn units_follow()
    ensures { UnitsFollow }
{}
