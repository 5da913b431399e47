// No work of a run takes more room than there is.
ghost use Rattle.run_ranks.specs.Laws.{PlainIsReady, PlainKeepsRoom, TestsKeepRoom, LinesKeepRoom, CallsAreReady, CallsKeepRoom, EntriesAreReady, EntriesKeepRoom, LeavesAreReady, LeavesKeepRoom};

/// Within a statement there is room for one more item. It does nothing.
pub fn plain_is_ready()
    ensures { PlainIsReady }
{}

/// An instruction that is no call keeps the room. It does nothing.
pub fn plain_keeps_room()
    ensures { PlainKeepsRoom }
{}

/// A test of a DO keeps the room. It does nothing.
pub fn tests_keep_room()
    ensures { TestsKeepRoom }
{}

/// The beginning of a statement keeps the room. It does nothing.
pub fn lines_keep_room()
    ensures { LinesKeepRoom }
{}

/// There is room for each call. It does nothing.
pub fn calls_are_ready()
    ensures { CallsAreReady }
{}

/// A call keeps the room. It does nothing.
pub fn calls_keep_room()
    ensures { CallsKeepRoom }
{}

/// There is room for the names of a unit that is to be entered. It does nothing.
pub fn entries_are_ready()
    ensures { EntriesAreReady }
{}

/// Entering a unit keeps the room. It does nothing.
pub fn entries_keep_room()
    ensures { EntriesKeepRoom }
{}

/// There is room for the value of a unit that is to be left. It does nothing.
pub fn leaves_are_ready()
    ensures { LeavesAreReady }
{}

/// Leaving a unit keeps the room. It does nothing.
pub fn leaves_keep_room()
    ensures { LeavesKeepRoom }
{}
