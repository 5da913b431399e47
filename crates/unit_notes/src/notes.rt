// The terms of INPUT and OUTPUT.
ghost use Rattle.std.specs.Prelude.{List};
ghost use Rattle.formula.specs.declared.node.Node.{Node};
ghost use Rattle.fort_model.specs.Program.{Program, notes_of};
ghost use Rattle.path_scene.specs.Scenes.{IsScene};
ghost use Rattle.unit_notes.specs.Terms.{AreTermsOf};

use formula::TermId;
use path_scene::Scene;

/// The terms of the INPUT of the unit of a number, from 0; none where there is no such unit.
pub fn input_of<'a>(scene: &Scene<'a>, number: usize) -> &'a [TermId]
    ensures { (pool : List Node) (p : Program) → IsScene pool scene.now p
        → AreTermsOf pool result.now (notes_of p number).input }
{
    match scene.notes.get(number) {
        Some(notes) => notes.input.as_slice(),
        None => &[],
    }
}

/// The terms of its OUTPUT.
pub fn output_of<'a>(scene: &Scene<'a>, number: usize) -> &'a [TermId]
    ensures { (pool : List Node) (p : Program) → IsScene pool scene.now p
        → AreTermsOf pool result.now (notes_of p number).output }
{
    match scene.notes.get(number) {
        Some(notes) => notes.output.as_slice(),
        None => &[],
    }
}
