// The statements of a unit, one behind the other.
ghost use Rattle.std.specs.Prelude.{◌≡◌, ◌<◌, ◌+◌, ◌∷◌, [], ◌++◌, length, IfOk, OnOk};
ghost use Rattle.fort_model.specs.Calls.{sites_of};
ghost use Rattle.run_coding.specs.Scopes.{with_calls};
ghost use Rattle.run_lines.specs.Stated.{aims};
ghost use Rattle.run_made.specs.Made.{scope_in, unit_in};
ghost use Rattle.run_made.specs.Lined.{code_at};
ghost use Rattle.run_made.specs.Making.{IsMadeOf, pushed_by};

use crate::maker::Maker;
use edge_io::NoMemory;
use fort_syntax::Line;
use run_lines::{Draft, Lines, code_stmt};
use run_shapes::LineCode;

/// The code of statements, and where that of each stands.
#[derive(Drop)]
pub struct Made {
    pub draft: Draft,
    pub codes: Vec<LineCode>,
}

fn push_code(codes: &mut Vec<LineCode>, code: LineCode) -> Result<(), NoMemory>
    ensures { OnOk result (codes.new.items ≡ codes.old.items ++ code ∷ []) }
{
    match codes.push(code) {
        Ok(()) => Ok(()),
        Err(_) => Err(NoMemory),
    }
}

impl<'a> Maker<'a> {
    /// Adds the code of the statement at a point.
    fn push_stmt(&self, draft: &mut Draft, line: &Line, point: usize) -> Result<(), NoMemory>
        requires { point < length (unit_in self.now).lines }
        ensures targets { OnOk result (draft.new.targets.items ≡ draft.old.targets.items ++ aims
            (unit_in self.now) line.now.stmt) }
        ensures calls { OnOk result (draft.new.calls.items ≡ with_calls (scope_in self.now)
            (sites_of (unit_in self.now) line.now.stmt) draft.old.calls.items) }
        ensures code { OnOk result (draft.new.instrs.items ≡ draft.old.instrs.items ++ pushed_by
            self.now draft.old point line.now) }
    {
        let lines = Lines {
            alloc: self.alloc,
            scope: self.ways.scope,
            points: self.points,
        };
        let spot = self.spot(line, point);
        let result = code_stmt(&lines, &spot, draft, &line.stmt);
        let Lines {
            alloc: _,
            scope: _,
            points: _,
        } = lines;
        result
    }

    /// The same, with its place.
    fn push_line(&self, made: &mut Made, line: &Line, point: usize) -> Result<(), NoMemory>
        requires { point < length (unit_in self.now).lines }
        ensures targets { OnOk result (made.new.draft.targets.items ≡ made.old.draft.targets.items
            ++ aims (unit_in self.now) line.now.stmt) }
        ensures calls { OnOk result (made.new.draft.calls.items ≡ with_calls (scope_in self.now)
            (sites_of (unit_in self.now) line.now.stmt) made.old.draft.calls.items) }
        ensures code { OnOk result (made.new.draft.instrs.items ≡ made.old.draft.instrs.items
            ++ pushed_by self.now made.old.draft point line.now) }
        ensures place { OnOk result (made.new.codes.items ≡ made.old.codes.items ++ code_at line.now
            (length made.old.draft.instrs.items) (pushed_by self.now made.old.draft point line.now)
            ∷ []) }
    {
        let start = made.draft.instrs.len();
        self.push_stmt(&mut made.draft, line, point)?;
        let stop = made.draft.instrs.len();
        push_code(
            &mut made.codes,
            LineCode {
                card: line.card,
                start,
                stop,
            },
        )
    }

    /// No code.
    fn nothing(&self) -> Made
        ensures instrs { result.draft.instrs.items ≡ [] }
        ensures calls { result.draft.calls.items ≡ [] }
        ensures targets { result.draft.targets.items ≡ [] }
        ensures codes { result.codes.items ≡ [] }
    {
        Made {
            draft: Draft {
                instrs: Vec::new(self.alloc),
                calls: Vec::new(self.alloc),
                targets: Vec::new(self.alloc),
            },
            codes: Vec::new(self.alloc),
        }
    }

    /// The code of all statements, in time for them.
    pub fn make(&self) -> Result<Made, NoMemory>
        ensures { IfOk result (IsMadeOf self.now) }
    {
        let mut made = self.nothing();
        let lines = self.lines();
        for point in 0..lines.len() {
            self.push_line(&mut made, &lines[point], point)?;
        }
        Ok(made)
    }
}
