// What an order of calls and well-formed units give.
ghost use Rattle.run_ranks.specs.Fitting.{NamesAreApart, OrdersHoldCode};
ghost use Rattle.run_ranks.specs.Orders.{CallersStandLater, TablesNameUnits};

/// The names of a well-formed unit are apart. It does nothing.
pub fn names_are_apart()
    ensures { NamesAreApart }
{}

/// In an order of calls a called unit stands before its callers. It does nothing.
pub fn callers_stand_later()
    ensures { CallersStandLater }
{}

/// Each call of code is of a unit that stands earlier in an order of calls. It does nothing.
pub fn orders_hold_code()
    ensures { OrdersHoldCode }
{}

/// Where there is a table of callees each call is of a unit. It does nothing.
pub fn tables_name_units()
    ensures { TablesNameUnits }
{}
