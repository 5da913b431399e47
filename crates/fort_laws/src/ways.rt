// Ways through a unit.
ghost use Rattle.fort_laws.specs.Ways.{StatementsLeadOn, WaysCanBeCompleted};

/// Each executable statement leads on under some choices. It does nothing.
pub fn statements_lead_on()
    ensures { StatementsLeadOn }
{}

/// In a unit without uncut cycles, choices that lead on from a statement can be completed to
/// choices that lead to a cut point: so each point that is reached lies on a path. It does nothing.
pub fn ways_can_be_completed()
    ensures { WaysCanBeCompleted }
{}
