// Walks along the paths of ways.
ghost use Rattle.way_walks.specs.Laws.{WalksGoAlong};

/// The walk along the path of a way performs the statement at each of its steps, and then arrives
/// at its end. It does nothing.
pub fn walks_go_along()
    ensures { WalksGoAlong }
{}
