// Graphs of units.
ghost use Rattle.fort_model.specs.Graphs.{GraphsLead};
ghost use Rattle.fort_model.specs.GraphRows.{GraphOfTwice};

/// The graph of a unit says for each point and all choices where they lead. It does nothing.
pub fn graphs_lead()
    ensures { GraphsLead }
{}

/// A graph of two DOs with one last statement.
pub fn graph_of_twice()
    ensures { GraphOfTwice }
{}
