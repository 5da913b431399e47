// DOs in slots.
ghost use Rattle.std.specs.Prelude.{◌≡◌, ◌<◌, ◌∷◌, [], ◌++◌, length, set, OnOk};
ghost use Rattle.loop_tables.specs.Loops.{with_loop};
ghost use Rattle.run_doing.specs.Rounds.{amount_in, overs, round_in, step_in, tests_in};

use crate::table::TestTable;
use edge_io::NoMemory;
use fort_syntax::{Name, Param, Stmt};
use run_coding::Scope;
use run_shapes::{Amount, Round, Test};

/// A parameter of a DO.
pub fn amount(scope: &Scope, p: Param) -> Amount
    ensures { result ≡ amount_in scope.now.names.now p }
{
    match p {
        Param::Fixed(n) => Amount::Fixed(n),
        Param::Named(x) => Amount::Named(scope.slot(&x)),
    }
}

fn step(scope: &Scope, p: Option<Param>) -> Option<Amount>
    ensures { result ≡ step_in scope.now.names.now p }
{
    match p {
        Some(m) => Some(amount(scope, m)),
        None => None,
    }
}

fn round(scope: &Scope, at: usize, x: &Name, last: Param, by: Option<Param>) -> Round
    ensures { result ≡ round_in scope.now.names.now
        (record { at = at; variable = x.now; last = last; step = by }) }
{
    Round {
        at,
        variable: scope.slot(x),
        last: amount(scope, last),
        step: step(scope, by),
    }
}

/// Adds a test.
pub fn push_test(tests: &mut Vec<Test>, test: Test) -> Result<(), NoMemory>
    ensures { OnOk result (tests.new.items ≡ tests.old.items ++ test ∷ []) }
{
    match tests.push(test) {
        Ok(()) => Ok(()),
        Err(_) => Err(NoMemory),
    }
}

/// Tells for the DO at a point that the tests behind its own stand at a place.
fn put_over(over: &mut Vec<usize>, at: usize, place: usize)
    requires { at < length over.old.items }
    ensures { over.new.items ≡ set over.old.items at place }
{
    over[at] = place;
}

/// Adds the test of the statement at a point, if it is a DO.
pub(crate) fn push_loop(
    scope: &Scope,
    table: &mut TestTable,
    at: usize,
    stmt: &Stmt,
) -> Result<(), NoMemory>
    requires { at < length table.old.over.items }
    ensures behind { OnOk result (table.new.behind.items ≡ table.old.behind.items) }
    ensures tests { OnOk result (table.new.tests.items ≡ table.old.tests.items ++ tests_in
        scope.now.names.now (with_loop at stmt.now [])) }
    ensures over { OnOk result (table.new.over.items ≡ overs (length table.old.tests.items)
        (with_loop at stmt.now []) table.old.over.items) }
{
    match stmt {
        Stmt::Do(_, x, _, last, by) => {
            push_test(
                &mut table.tests,
                Test::Loop(round(scope, at, x, *last, *by)),
            )?;
            let place = table.tests.len();
            put_over(&mut table.over, at, place);
            Ok(())
        }
        _ => Ok(()),
    }
}
