// The table of smashed names.
ghost use Rattle.smash_laws.specs.Ordered.{OneSmashTable, TablesByOrder};

/// In a well-formed deck whose units have an order in which each stands behind those that it calls, the table that is made
/// unit after unit in that order, from what statements set and pass on alone, is the table of smashed names: a name is in it
/// exactly where the unit smashes the name. So each such deck has a table, and it is found by looking. It does nothing.
pub fn tables_by_order()
    ensures { TablesByOrder }
{}

/// A deck has one table of smashed names: two programs of the same units, each with a table that is right, have the same
/// table. It does nothing.
pub fn one_smash_table()
    ensures { OneSmashTable }
{}
