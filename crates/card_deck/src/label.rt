// Labels.
ghost use Rattle.std.specs.Prelude.{◌≡◌, ◌≤◌, length, is_some, IfSome};
ghost use Rattle.formula.specs.Atoms.{spelled};
ghost use Rattle.fort_syntax.specs.Cards.{without_blanks, is_label};

/// The label in columns 1 to 5, 0 where they are blank; None where they hold no label.
pub(crate) fn label(field: &[u8]) -> Option<u32>
    requires { length field.now ≤ 5 }
    ensures some { is_some result ≡ is_label (without_blanks field.now) }
    ensures value { IfSome result (λ n. n ≡ spelled (without_blanks field.now)) }
{
    let mut number = 0;
    let mut given = false;
    for byte in field {
        if *byte != b' ' {
            if *byte < b'0' || *byte > b'9' {
                return None;
            }
            number = number * 10 + u32::from(*byte - b'0');
            given = true;
        }
    }
    if given && number == 0 {
        None
    } else {
        Some(number)
    }
}
