// What a statement is to the block IFs around it.
ghost use Rattle.std.specs.Prelude.{◌≡◌};
ghost use Rattle.fort_model.specs.Flow.{part_of};
ghost use Rattle.unit_points.specs.Turns.{seen_part};

use fort_syntax::Stmt;

/// What a statement is to the block IFs around it.
#[derive(Clone, Copy, Debug)]
pub enum Part {
    /// IF .. THEN.
    Opens,
    /// ELSE IF and ELSE.
    Branches,
    /// END IF.
    Closes,
    /// Any other.
    Plain,
}

impl Part {
    /// What a statement is to the block IFs around it.
    pub fn of(stmt: &Stmt) -> Part
        ensures { seen_part result ≡ part_of stmt.now }
    {
        match stmt {
            Stmt::BlockIf(_) => Part::Opens,
            Stmt::ElseIf(_) | Stmt::Else => Part::Branches,
            Stmt::EndIf => Part::Closes,
            _ => Part::Plain,
        }
    }
}
