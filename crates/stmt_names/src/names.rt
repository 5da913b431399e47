// What names are by their letters.
ghost use Rattle.std.specs.Prelude.{◌≡◌};
ghost use Rattle.fort_syntax.specs.Scopes.{sort_by_letter, is_intrinsic_name, takes_so_many};

use fort_syntax::{Name, Sort};

/// The type that the first letter of a name gives: integer for I to N.
pub fn sort_by_letter(name: &Name) -> Option<Sort>
    ensures { result ≡ sort_by_letter name.now }
{
    match name.as_bytes().first() {
        Some(letter) if *letter >= b'I' && *letter <= b'N' => Some(Sort::Integer),
        _ => None,
    }
}

/// Whether a name is that of an intrinsic function.
pub fn is_intrinsic_name(name: &Name) -> bool
    ensures { result ≡ is_intrinsic_name name.now }
{
    let bytes = name.as_bytes();
    bytes == b"IABS".as_slice()
        || bytes == b"MOD".as_slice()
        || bytes == b"MAX0".as_slice()
        || bytes == b"MIN0".as_slice()
}

/// Whether an intrinsic function takes so many arguments.
pub fn takes_so_many(name: &Name, count: usize) -> bool
    ensures { result ≡ takes_so_many name.now count }
{
    let bytes = name.as_bytes();
    if bytes == b"IABS".as_slice() {
        count == 1
    } else if bytes == b"MOD".as_slice() {
        count == 2
    } else {
        count >= 2
    }
}
