// What frames tell.
ghost use Rattle.call_frames.specs.Laws.{FramesTellNotes, ToldByCalls};

/// What a frame tells of notes that fit the called unit is what they say where the names stand for
/// what the frame's do; and all of their names are known to it. It does nothing.
pub fn frames_tell_notes()
    ensures { FramesTellNotes }
{}

/// What the names of a frame stand for is what a call tells. It does nothing.
pub fn told_by_calls()
    ensures { ToldByCalls }
{}
