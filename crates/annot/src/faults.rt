// The first of two faults.
ghost use Rattle.std.specs.Prelude.{◌≡◌};
ghost use Rattle.fort_notes.specs.Judging.{with_lesser};

use fort_syntax::Fault;

// Of two faults the one on the lesser card.
pub(crate) fn with_lesser(fault: Fault, other: Option<Fault>) -> Fault
    ensures { result ≡ with_lesser fault other }
{
    match other {
        Some(missing) => {
            if missing.card < fault.card {
                missing
            } else {
                fault
            }
        }
        None => fault,
    }
}
