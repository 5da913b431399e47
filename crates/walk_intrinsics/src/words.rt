// The names of the intrinsic functions.
ghost use Rattle.std.specs.Prelude.{◌≡◌, option_map};
ghost use Rattle.formula.specs.Atoms.{same_bytes};
ghost use Rattle.fort_syntax.specs.Names.{intrinsic};
ghost use Rattle.walk_intrinsics.specs.Functions.{meaning};

use fort_syntax::Name;

/// An intrinsic function: IABS, MOD, MAX0 or MIN0.
#[derive(Clone, Copy, Debug)]
pub enum Function {
    Absolute,
    Modulo,
    Greatest,
    Least,
}

/// Whether a name is a word.
fn is_word(name: &Name, word: &[u8]) -> bool
    ensures { result ≡ same_bytes name.now word.now }
{
    name.as_bytes() == word
}

/// The intrinsic function of a name, where it is that of one.
pub fn intrinsic_of(name: &Name) -> Option<Function>
    ensures { option_map meaning result ≡ intrinsic name.now }
{
    if is_word(name, b"IABS") {
        return Some(Function::Absolute);
    }
    if is_word(name, b"MOD") {
        return Some(Function::Modulo);
    }
    if is_word(name, b"MAX0") {
        return Some(Function::Greatest);
    }
    if is_word(name, b"MIN0") {
        return Some(Function::Least);
    }
    None
}
