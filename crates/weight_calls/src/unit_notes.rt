// The notes of units, and the names that they smash.
ghost use Rattle.std.specs.Prelude.{◌≡◌, length, map, option_copied, slice_get};
ghost use Rattle.formula.specs.Pool.{AllBelow, tree_of};
ghost use Rattle.fort_model.specs.Program.{notes_of};
ghost use Rattle.weight_calls.specs.Programs.{seen_program};

use crate::subject::Subject;
use formula::TermId;
use fort_notes::UnitSpec;
use name_tables::NameSet;

impl<'a> Subject<'a> {
    /// The notes of a unit of the program, where there is such a unit.
    fn spec(&self, number: usize) -> Option<&'a UnitSpec>
        ensures { option_copied result ≡ slice_get self.now.scene.now.notes.now number }
    {
        self.scene.notes.get(number)
    }

    /// The terms of INPUT of a unit of the program.
    pub fn input(&self, number: usize) -> &'a [TermId]
        ensures terms { map (tree_of self.now.pool.now) result.now
            ≡ (notes_of (seen_program self.now.pool.now self.now.scene.now) number).input }
        ensures below { AllBelow (length self.now.pool.now) result.now }
    {
        match self.spec(number) {
            Some(spec) => spec.input.as_slice(),
            None => &[],
        }
    }

    /// The terms of OUTPUT of a unit of the program.
    pub fn output(&self, number: usize) -> &'a [TermId]
        ensures terms { map (tree_of self.now.pool.now) result.now
            ≡ (notes_of (seen_program self.now.pool.now self.now.scene.now) number).output }
        ensures below { AllBelow (length self.now.pool.now) result.now }
    {
        match self.spec(number) {
            Some(spec) => spec.output.as_slice(),
            None => &[],
        }
    }

    /// The names that a unit of the program smashes, where there is such a unit.
    pub(crate) fn smashes(&self, number: usize) -> Option<&'a NameSet>
        ensures { option_copied result ≡ slice_get self.now.scene.now.smashes.now number }
    {
        self.scene.smashes.get(number)
    }
}
