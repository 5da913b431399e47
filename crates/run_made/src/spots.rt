// Where statements stand, and how the flow goes on behind them.
ghost use Rattle.std.specs.Prelude.{◌≡◌, ◌<◌, length, get_or, slice_get, option_copied};
ghost use Rattle.fort_model.specs.Flow.{next_branch, next_point};
ghost use Rattle.fort_model.specs.Perform.{card_in};
ghost use Rattle.run_made.specs.Made.{behind_at, behind_by, over_at, told_by, unit_in};

use crate::maker::Maker;
use fort_syntax::{Line, Stmt};
use run_lines::Spot;
use run_shapes::{Instr, Test};

/// The instruction behind a statement at a card, whose tests begin so at a place.
fn told(card: u32, place: usize, test: &Test) -> Instr
    ensures { result ≡ told_by card place test.now }
{
    match test {
        Test::Loop(_) => Instr::Tests(card, place),
        Test::Out(next) => Instr::Go(card, *next),
    }
}

fn behind_by(card: u32, place: usize, test: Option<&Test>) -> Instr
    ensures { result ≡ behind_by card place (option_copied test.entry) }
{
    match test {
        Some(test) => told(card, place, test),
        None => Instr::Tests(card, place),
    }
}

fn number_at(numbers: &[usize], at: usize) -> usize
    requires { at < length numbers.now }
    ensures { result ≡ get_or numbers.now at 0 }
{
    numbers[at]
}

/// The card of the statement at a point.
fn card_at(lines: &[Line], at: usize) -> u32
    ensures { result ≡ card_in (slice_get lines.now at) }
{
    match lines.get(at) {
        Some(line) => line.card,
        None => 0,
    }
}

impl<'a> Maker<'a> {
    pub(crate) fn lines(&self) -> &'a [Line]
        ensures { result.now ≡ (unit_in self.now).lines }
    {
        self.ways.scope.book.unit.lines.as_slice()
    }

    /// The instruction behind the statement at a point.
    fn behind(&self, card: u32, point: usize) -> Instr
        requires { point < length (unit_in self.now).lines }
        ensures { result ≡ behind_at self.now.table.now card point }
    {
        let place = self.place_behind(point);
        behind_by(card, place, self.table.tests.as_slice().get(place))
    }

    /// The place of the tests behind that of the DO at a point.
    fn place_over(&self, point: usize) -> usize
        requires { point < length (unit_in self.now).lines }
        ensures { result ≡ get_or self.now.table.now.over.items point 0 }
    {
        number_at(self.table.over.as_slice(), point)
    }

    /// The place of the tests behind the statement at a point.
    fn place_behind(&self, point: usize) -> usize
        requires { point < length (unit_in self.now).lines }
        ensures { result ≡ get_or self.now.table.now.behind.items point 0 }
    {
        number_at(self.table.behind.as_slice(), point)
    }

    /// The instruction behind the range of the DO at a point, where one stands there.
    fn over(&self, point: usize, stmt: &Stmt) -> Instr
        requires { point < length (unit_in self.now).lines }
        ensures { result ≡ over_at (unit_in self.now) self.now.table.now point stmt.now }
    {
        match stmt {
            Stmt::Do(label, ..) => {
                let last = self.points.point(self.lines(), *label);
                Instr::Tests(card_at(self.lines(), last), self.place_over(point))
            }
            _ => Instr::Stop,
        }
    }

    /// The next branch of the block IF of the statement at a point.
    fn branch(&self, point: usize) -> usize
        requires { point < length (unit_in self.now).lines }
        ensures { result ≡ next_branch (unit_in self.now) point }
    {
        self.ways.turns.branches[point]
    }

    /// Where a statement stands.
    pub(crate) fn spot(&self, line: &Line, point: usize) -> Spot
        requires { point < length (unit_in self.now).lines }
        ensures point { result.point ≡ point }
        ensures behind { result.behind ≡ behind_at self.now.table.now line.now.card point }
        ensures over { result.over ≡ over_at (unit_in self.now) self.now.table.now point line.now.stmt }
        ensures next { result.next ≡ next_point (unit_in self.now) point }
        ensures branch { result.branch ≡ next_branch (unit_in self.now) point }
    {
        Spot {
            point,
            behind: self.behind(line.card, point),
            over: self.over(point, &line.stmt),
            next: self.ways.next(point),
            branch: self.branch(point),
        }
    }
}
