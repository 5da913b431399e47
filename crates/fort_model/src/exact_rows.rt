// Conditions and walks of small decks side by side.
ghost use Rattle.fort_model.specs.ExactRows.{ExactForInc, ExactForLoop, ExactForAdjustable};

/// The conditions of an assignment and its walk.
pub fn exact_for_inc()
    ensures { ExactForInc }
{}

/// The conditions of a loop and its walks.
pub fn exact_for_loop()
    ensures { ExactForLoop }
{}

/// The conditions of an array with adjustable dimensions and their walk.
pub fn exact_for_adjustable()
    ensures { ExactForAdjustable }
{}
