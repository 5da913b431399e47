// The limits are judged in one way.
ghost use Rattle.path_sizes.specs.Laws.{OneSizeFault, SizesAreJudged};

/// A program whose units have lists of their paths is within the limits, or has a fault of size, and
/// never both. It does nothing.
pub fn sizes_are_judged()
    ensures { SizesAreJudged }
{}

/// Two faults of size of a program are one. It does nothing.
pub fn one_size_fault()
    ensures { OneSizeFault }
{}
