// A unit that is made into code.
ghost use Rattle.unit_tables.specs.Tables.{ArePointsOf};
ghost use Rattle.run_doing.specs.Rounds.{IsTestTable};

use run_doing::{TestTable, Ways};
use std::alloc::Global;
use unit_tables::LabelPoints;

/// A unit with the tables by which its statements are made into code.
#[derive(Drop)]
pub struct Maker<'a> {
    pub alloc: Global,
    pub ways: &'a Ways<'a>,
    pub points: &'a LabelPoints,
    pub table: &'a TestTable,
    ghost points_are: { ArePointsOf ways.now.scope.now.book.now.unit.now.lines points.now },
    ghost table_is: { IsTestTable ways.now.scope.now.book.now.unit.now ways.now.scope.now.names.now table.now },
}
