// Heads, declarations and END in their order.
ghost use Rattle.std.specs.Prelude.{◌≡◌, List, [], true, false};
ghost use Rattle.fort_syntax.specs.Units.{Segment};
ghost use Rattle.fort_syntax.specs.OrderRules.{places_in};
ghost use Rattle.fort_syntax.specs.UnitRules.{order_rules, fault_in_stage};
ghost use Rattle.fort_syntax.specs.declared.dialect.Dialect.{Dialect};
ghost use Rattle.order_faults.specs.Scans.{order_rule, order_scan};

use fort_syntax::{Class, Fault, Line, Rule};

/// The first of the rules on the order of statements that a statement breaks.
fn order_rule(class: Class, first: bool, performed: bool, last: bool) -> Option<Rule>
    ensures { result ≡ order_rule class first performed last }
{
    if (class == Class::Heading && !first) || (class == Class::Declaring && performed) {
        Some(Rule::StatementOrder)
    } else if first && class != Class::Heading {
        Some(Rule::NoHead)
    } else if last && class != Class::Ending {
        Some(Rule::NoEnd)
    } else {
        None
    }
}

pub(crate) fn scan(unit: &[Line]) -> Option<Fault>
    ensures { result ≡ order_scan true false unit.now }
{
    let mut performed = false;
    for i in 0..unit.len() {
        let class = unit[i].stmt.class();
        if let Some(rule) = order_rule(class, i == 0, performed, i + 1 == unit.len()) {
            return Some(Fault {
                rule,
                card: unit[i].card,
            });
        }
        performed = performed || class == Class::Performing;
    }
    None
}

/// The first fault of a unit by the rules on the order of its statements.
#[tactic(auto, using(crate::proofs::OrderScans::scanned))]
pub fn order_fault(unit: &[Line]) -> Option<Fault>
    ensures { (dialect : Dialect) (earlier : List Segment) → result ≡ fault_in_stage order_rules
        (places_in dialect earlier unit.now [] unit.now) }
{
    scan(unit)
}
