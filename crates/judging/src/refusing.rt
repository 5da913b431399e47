// Texts that are at fault.
ghost use Rattle.judging.specs.Laws.{AcceptedInHaveNoFault, FaultsInAreOne, KeptHaveNoFault};

/// Bytes that keep all rules but those on sizes have no first fault of another rule. It does nothing.
pub fn kept_have_no_fault()
    ensures { KeptHaveNoFault }
{}

/// No bytes are both accepted and at fault. It does nothing.
pub fn accepted_in_have_no_fault()
    ensures { AcceptedInHaveNoFault }
{}

/// Bytes have at most one first fault: the refusal is a matter of the text alone. It does nothing.
pub fn faults_in_are_one()
    ensures { FaultsInAreOne }
{}
