// The parts of the code of a unit.
ghost use Rattle.std.specs.Prelude.{◌≡◌, IfOk};
ghost use Rattle.fort_syntax.specs.Names.{own_names};
ghost use Rattle.run_coding.specs.Pushed.{slot_in};
ghost use Rattle.run_coding.specs.Scopes.{unit_of};
ghost use Rattle.run_units.specs.Parts.{ArePartsOf, IsBodyOf};

use crate::commons::{Commons, count_own};
use edge_io::{Keys, NoMemory};
use loop_tables::Loops;
use run_coding::Scope;
use run_doing::{TestTable, Ways, tests_of_unit};
use run_made::{Made, Maker};
use run_sizes::{Sizes, sizes_of_names};
use std::alloc::Global;
use unit_points::turns_of;
use unit_tables::LabelPoints;

/// The code of the statements of a unit, with its tests.
#[derive(Drop)]
pub struct Body {
    pub table: TestTable,
    pub made: Made,
}

/// The code of a unit, but for its names.
#[derive(Drop)]
pub struct Parts {
    pub sizes: Sizes,
    pub body: Body,
    pub shared: Vec<usize>,
    pub dummies: usize,
    pub own: usize,
    pub value: usize,
}

fn body_of(alloc: Global, keys: Keys, scope: &Scope) -> Result<Body, NoMemory>
    ensures { IfOk result (IsBodyOf scope.now) }
{
    let unit = scope.book.unit;
    let points = LabelPoints::new(alloc, keys, unit.lines.as_slice())?;
    let turns = turns_of(alloc, unit)?;
    let loops = Loops::new(alloc, unit, &points)?;
    let ways = Ways {
        scope,
        turns: &turns,
        loops: &loops,
    };
    let table = tests_of_unit(alloc, &ways)?;
    let maker = Maker {
        alloc,
        ways: &ways,
        points: &points,
        table: &table,
    };
    let made = maker.make()?;
    Ok(Body { table, made })
}

pub(crate) fn parts_of(
    alloc: Global,
    keys: Keys,
    commons: &Commons,
    scope: &Scope,
) -> Result<Parts, NoMemory>
    ensures { IfOk result (ArePartsOf scope.now commons.now.names.now) }
{
    let unit = scope.book.unit;
    let dummies = unit.dummies.as_slice().len();
    let own = count_own(unit.names.as_slice());
    let sizes = sizes_of_names(alloc, scope)?;
    let body = body_of(alloc, keys, scope)?;
    let shared = commons.places(alloc, scope.names, dummies + own)?;
    Ok(Parts {
        sizes,
        body,
        shared,
        dummies,
        own,
        value: scope.slot(&unit.name),
    })
}
