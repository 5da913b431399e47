// The laws of units of a program that is ready.
ghost use Rattle.ready_flows.specs.Laws.{ReadyUnitsFlow, ReadyUnitsStand};

/// Each unit of a program that is ready is well formed. It does nothing.
pub fn ready_units_stand()
    ensures { ReadyUnitsStand }
{}

/// Each unit of a program that is ready has a flow. It does nothing.
pub fn ready_units_flow()
    ensures { ReadyUnitsFlow }
{}
