// Which symbols walks read, and what walks that do not fail give.
ghost use Rattle.fort_laws.specs.FewSymbols.{
  PathsMakeAssertsSafe,
  PathsMakeEntriesSafe,
  SafePathsEnd,
  WalksReadFewSymbols,
};

/// From a point, with names and answers of calls told, a walk reads the bounds of the processor and
/// values at the entry, and no other symbol. It does nothing.
pub fn walks_read_few_symbols()
    ensures { WalksReadFewSymbols }
{}

/// Let no walk along a path of a unit have a check as its first false event, whatever its symbols
/// stand for. Then none has on a way from the entry to the next cut point, whatever calls answer,
/// where what is taken at the entry is true. It does nothing.
pub fn paths_make_entries_safe()
    ensures { PathsMakeEntriesSafe }
{}

/// Let no walk along a path of a unit have a check as its first false event, whatever its symbols
/// stand for. Then none has on a way from an ASSERT that is true to the next cut point, whatever
/// names stand for and calls answer, where what is taken at the entry is true, and where smashed
/// names have their types. It does nothing.
pub fn paths_make_asserts_safe()
    ensures { PathsMakeAssertsSafe }
{}

/// Let no walk along a path of a unit have a check as its first false event, whatever its symbols
/// stand for, no cycle go uncut, and all clocks have equally many parts. Then a strict run from the
/// first statement comes to the end of the unit in some number of steps and without error, and all
/// of OUTPUT is true there. Calls are taken to match, statements to be good, smashed names to have
/// their types at ASSERTs, and what is taken at the entry to be true. It does nothing.
pub fn safe_paths_end()
    ensures { SafePathsEnd }
{}
