// Lazy processors.
ghost use Rattle.fort_laws.specs.Lazy.{LazyRunsFollowStrictOnes};

/// A lazy processor leaves out a right operand that decides nothing. Where a strict one that is
/// otherwise the same ends a run of a unit, the lazy one ends it with the same value and storage,
/// from any stock of steps that is not smaller, and uses no more of it. No FUNCTION may smash a
/// dummy or a COMMON entity. It does nothing.
pub fn lazy_runs_follow_strict_ones()
    ensures { LazyRunsFollowStrictOnes }
{}
