// Tables of the tests of a unit.
ghost use Rattle.std.specs.Prelude.{◌≡◌, ◌≤◌, [], ◌++◌, length, slice_get, OnOk};
ghost use Rattle.loop_tables.specs.Loops.{loops_told, with_line};
ghost use Rattle.run_doing.specs.Rounds.{overs, tests_in};

use crate::rounds::push_loop;
use edge_io::NoMemory;
use fort_syntax::Line;
use run_coding::Scope;
use run_shapes::Test;

/// The tests of a unit: for each point the place of those of the DOs that end there, and for each DO
/// the place of those behind its own.
#[derive(Drop)]
pub struct TestTable {
    pub tests: Vec<Test>,
    pub behind: Vec<usize>,
    pub over: Vec<usize>,
}

/// Adds the test of the DO at a point, if one stands there.
fn push_point(
    scope: &Scope,
    table: &mut TestTable,
    lines: &[Line],
    at: usize,
) -> Result<(), NoMemory>
    requires { length lines.now ≤ length table.old.over.items }
    ensures behind { OnOk result (table.new.behind.items ≡ table.old.behind.items) }
    ensures tests { OnOk result (table.new.tests.items ≡ table.old.tests.items ++ tests_in
        scope.now.names.now (with_line at (slice_get lines.now at) [])) }
    ensures over { OnOk result (table.new.over.items ≡ overs (length table.old.tests.items)
        (with_line at (slice_get lines.now at) []) table.old.over.items) }
{
    match lines.get(at) {
        Some(line) => push_loop(scope, table, at, &line.stmt),
        None => Ok(()),
    }
}

/// Adds the tests of the DOs at some points.
pub(crate) fn push_points(
    scope: &Scope,
    table: &mut TestTable,
    lines: &[Line],
    points: &[usize],
) -> Result<(), NoMemory>
    requires { length lines.now ≤ length table.old.over.items }
    ensures behind { OnOk result (table.new.behind.items ≡ table.old.behind.items) }
    ensures tests { OnOk result (table.new.tests.items ≡ table.old.tests.items ++ tests_in
        scope.now.names.now (loops_told lines.now points.now)) }
    ensures over { OnOk result (table.new.over.items ≡ overs (length table.old.tests.items)
        (loops_told lines.now points.now) table.old.over.items) }
{
    for at in points {
        push_point(scope, table, lines, *at)?;
    }
    Ok(())
}
