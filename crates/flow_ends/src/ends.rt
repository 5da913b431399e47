// 30: the flow goes on behind the last statement.
ghost use Rattle.std.specs.Prelude.{◌≡◌};
ghost use Rattle.fort_syntax.specs.FirstFaults.{TellsLeast};
ghost use Rattle.fort_syntax.specs.declared.rule.Rule.TheVariants.{FallsOffEnd};
ghost use Rattle.fort_model.specs.Rules.{ends_flow, off_end};
ghost use Rattle.unit_faults.specs.Breaking.{IsBrokenAt};
ghost use Rattle.flow_ends.specs.Ends.{card_list, cards_behind};

use fort_syntax::{Dialect, Fault, Line, Rule, Stmt, Unit};

fn ends_flow(dialect: Dialect, stmt: &Stmt) -> bool
    ensures { result ≡ ends_flow dialect stmt.now }
{
    match stmt {
        Stmt::GoTo(_) | Stmt::ArithIf(..) | Stmt::Return => true,
        Stmt::Computed(..) => matches!(dialect, Dialect::Common),
        _ => false,
    }
}

/// The card of a statement, where the flow goes on behind it.
fn card_behind(dialect: Dialect, line: &Line) -> Option<u32>
    ensures { card_list result ≡ cards_behind dialect line.now }
{
    if ends_flow(dialect, &line.stmt) {
        return None;
    }
    Some(line.card)
}

/// The card of the last statement, where the flow goes on behind it; without statements that of END.
fn off_card(dialect: Dialect, unit: &Unit) -> Option<u32>
    ensures { card_list result ≡ off_end dialect unit.now unit.now.lines }
{
    match unit.lines.as_slice().last() {
        Some(line) => card_behind(dialect, line),
        None => Some(unit.end),
    }
}

/// The fault by rule 30 of a unit in a dialect: the flow goes on behind its last statement. The card is that of
/// the statement; in a unit without statements it is that of END. None: the unit keeps the rule.
pub fn off_end(dialect: Dialect, unit: &Unit) -> Option<Fault>
    ensures { TellsLeast (IsBrokenAt FallsOffEnd (off_end dialect unit.now unit.now.lines)) result }
{
    match off_card(dialect, unit) {
        Some(card) => Some(Fault {
            rule: Rule::FallsOffEnd,
            card,
        }),
        None => None,
    }
}
