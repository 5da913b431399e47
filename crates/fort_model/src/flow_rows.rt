// Where the statements of small decks lead.
ghost use Rattle.fort_model.specs.FlowRows.{FlowOfBlocks, FlowOfLoops, FlowPastLoops, FlowOfChoices};

/// The flow of a block IF.
pub fn flow_of_blocks()
    ensures { FlowOfBlocks }
{}

/// The flow of two DOs that end together.
pub fn flow_of_loops()
    ensures { FlowOfLoops }
{}

/// The flow past a DO that is not entered.
pub fn flow_past_loops()
    ensures { FlowPastLoops }
{}

/// The flow of a computed GO TO.
pub fn flow_of_choices()
    ensures { FlowOfChoices }
{}
