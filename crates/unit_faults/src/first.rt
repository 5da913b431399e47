// The sooner of two faults.
ghost use Rattle.std.specs.Prelude.{◌≡◌};
ghost use Rattle.unit_faults.specs.Sooner.{comes_first, sooner};

use fort_syntax::Fault;

/// Whether a fault stands before another, or is it.
fn is_first(fault: &Fault, other: &Fault) -> bool
    ensures { result ≡ comes_first fault.now other.now }
{
    fault.card < other.card
        || (fault.card == other.card && fault.rule.number() <= other.rule.number())
}

/// Of two faults the one on the lesser card, and on one card that of the lesser number; the other where there is only one.
pub fn sooner(fault: Option<Fault>, other: Option<Fault>) -> Option<Fault>
    ensures { result ≡ sooner fault other }
{
    let Some(f) = fault else {
        return other;
    };
    let Some(g) = other else {
        return Some(f);
    };
    if is_first(&f, &g) { Some(f) } else { Some(g) }
}
