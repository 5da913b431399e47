// The table of the tests of a unit.
ghost use Rattle.std.specs.Prelude.{◌≡◌, ◌≤◌, ◌∷◌, [], ◌++◌, length, replicate, IfOk, OnOk};
ghost use Rattle.fort_model.specs.Flow.{loops_at, next_point};
ghost use Rattle.loop_tables.specs.Loops.{AreLoops};
ghost use Rattle.unit_points.specs.Turns.{AreTurnsOf};
ghost use Rattle.run_coding.specs.Scopes.{unit_of};
ghost use Rattle.run_doing.specs.Rounds.{IsTestTable, overs, piece_at};

use crate::rounds::push_test;
use crate::table::{TestTable, push_points};
use edge_io::NoMemory;
use loop_tables::Loops;
use run_coding::Scope;
use run_shapes::Test;
use std::alloc::Global;
use unit_points::Turns;

/// A unit with tables of how its flow goes on.
#[derive(Drop)]
pub struct Ways<'a> {
    pub scope: &'a Scope<'a>,
    pub turns: &'a Turns,
    pub loops: &'a Loops,
    ghost turns_are: { AreTurnsOf scope.now.book.now.unit.now turns.now },
    ghost loops_are: { AreLoops scope.now.book.now.unit.now loops.now },
}

impl<'a> Ways<'a> {
    /// The point that the flow goes on to behind a point.
    pub fn next(&self, point: usize) -> usize
        requires { point ≤ length (unit_of self.now.scope.now).lines }
        ensures { result ≡ next_point (unit_of self.now.scope.now) point }
    {
        if point < self.scope.book.unit.lines.as_slice().len() {
            self.turns.points[point]
        } else {
            point + 1
        }
    }

    /// Adds the tests of the DOs whose last statement stands at a point, and behind them the point where the flow goes on.
    fn push_piece(&self, table: &mut TestTable, point: usize) -> Result<(), NoMemory>
        requires point { point ≤ length (unit_of self.now.scope.now).lines }
        requires long { length (unit_of self.now.scope.now).lines ≤ length table.old.over.items }
        ensures behind { OnOk result (table.new.behind.items ≡ table.old.behind.items ++
            length table.old.tests.items ∷ []) }
        ensures tests { OnOk result (table.new.tests.items ≡ table.old.tests.items ++ piece_at
            (unit_of self.now.scope.now) self.now.scope.now.names.now point) }
        ensures over { OnOk result (table.new.over.items ≡ overs (length table.old.tests.items)
            (loops_at (unit_of self.now.scope.now) point) table.old.over.items) }
    {
        let unit = self.scope.book.unit;
        push_place(&mut table.behind, table.tests.len())?;
        push_points(
            self.scope,
            table,
            unit.lines.as_slice(),
            self.loops.at(unit, point),
        )?;
        push_test(&mut table.tests, Test::Out(self.next(point)))
    }
}

fn push_place(places: &mut Vec<usize>, place: usize) -> Result<(), NoMemory>
    ensures { OnOk result (places.new.items ≡ places.old.items ++ place ∷ []) }
{
    match places.push(place) {
        Ok(()) => Ok(()),
        Err(_) => Err(NoMemory),
    }
}

/// So many places that are not told yet.
fn no_places(alloc: Global, count: usize) -> Result<Vec<usize>, NoMemory>
    ensures { IfOk result (λ places. places.items ≡ replicate count 0) }
{
    let mut places = Vec::new(alloc);
    for _ in 0..count {
        push_place(&mut places, 0)?;
    }
    Ok(places)
}

/// The tests of a unit, in time for its statements.
pub fn tests_of_unit(alloc: Global, ways: &Ways) -> Result<TestTable, NoMemory>
    ensures { IfOk result (IsTestTable (unit_of ways.now.scope.now) ways.now.scope.now.names.now) }
{
    let count = ways.scope.book.unit.lines.as_slice().len();
    let mut table = TestTable {
        tests: Vec::new(alloc),
        behind: Vec::new(alloc),
        over: no_places(alloc, count)?,
    };
    for point in 0..count + 1 {
        ways.push_piece(&mut table, point)?;
    }
    Ok(table)
}
