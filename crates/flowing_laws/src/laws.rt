// The law of units that have a flow.
ghost use Rattle.flowing_laws.specs.Laws.{UnitsFlow};

/// A unit that is well formed, whose DOs end as they may, has a flow, unless it has too many statements to be
/// numbered. It does nothing.
pub fn units_flow()
    ensures { UnitsFlow }
{}
