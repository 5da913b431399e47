// The code of a unit while it is made.
ghost use Rattle.std.specs.Prelude.{◌≡◌, ◌∷◌, [], ◌++◌, length, map, IfOk, OnOk};
ghost use Rattle.fort_model.specs.Flow.{target};
ghost use Rattle.unit_tables.specs.Tables.{ArePointsOf};

use edge_io::NoMemory;
use fort_syntax::Line;
use run_shapes::{CallCode, Instr};
use unit_tables::LabelPoints;

/// Instructions, and the tables of calls and of targets.
#[derive(Drop)]
pub struct Draft {
    pub instrs: Vec<Instr>,
    pub calls: Vec<CallCode>,
    pub targets: Vec<usize>,
}

/// Adds an instruction.
pub(crate) fn push(out: &mut Vec<Instr>, instr: Instr) -> Result<(), NoMemory>
    ensures { OnOk result (out.new.items ≡ out.old.items ++ instr ∷ []) }
{
    match out.push(instr) {
        Ok(()) => Ok(()),
        Err(_) => Err(NoMemory),
    }
}

/// Adds instructions.
pub(crate) fn push_all(out: &mut Vec<Instr>, more: &[Instr]) -> Result<(), NoMemory>
    ensures { OnOk result (out.new.items ≡ out.old.items ++ more.now) }
{
    for instr in more {
        push(out, *instr)?;
    }
    Ok(())
}

fn push_point(targets: &mut Vec<usize>, point: usize) -> Result<(), NoMemory>
    ensures { OnOk result (targets.new.items ≡ targets.old.items ++ point ∷ []) }
{
    match targets.push(point) {
        Ok(()) => Ok(()),
        Err(_) => Err(NoMemory),
    }
}

/// Adds the points of labels.
pub(crate) fn push_targets(
    targets: &mut Vec<usize>,
    points: &LabelPoints,
    lines: &[Line],
    labels: &[u32],
) -> Result<(), NoMemory>
    requires { ArePointsOf lines.now points.now }
    ensures { OnOk result (targets.new.items ≡ targets.old.items ++ map (target lines.now) labels.now) }
{
    for label in labels {
        push_point(targets, points.point(lines, *label))?;
    }
    Ok(())
}

/// Adds the points of the three labels of an arithmetic IF.
pub(crate) fn push_three(
    targets: &mut Vec<usize>,
    points: &LabelPoints,
    lines: &[Line],
    labels: (u32, u32, u32),
) -> Result<(), NoMemory>
    requires { ArePointsOf lines.now points.now }
    ensures { OnOk result (targets.new.items ≡ targets.old.items ++ target lines.now labels.0
        ∷ target lines.now labels.1 ∷ target lines.now labels.2 ∷ []) }
{
    push_point(targets, points.point(lines, labels.0))?;
    push_point(targets, points.point(lines, labels.1))?;
    push_point(targets, points.point(lines, labels.2))
}
