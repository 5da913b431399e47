// Instructions that put a value in the place of values.
ghost use Rattle.std.specs.Prelude.{◌≡◌, ◌<◌, length, Result};
ghost use Rattle.run_elements.specs.Elements.{answer_to, answered};

use crate::intrinsics::intrinsic;
use crate::reading::{read, value_at, valued};
use fort_syntax::Kind;
use run_held::{Held, compared, constant, negated, operated, power};
use run_shapes::Instr;
use run_state::{Item, Setting, State, no_item};

/// A value stands in the place of the newest so many, or there is an error.
#[tactic(auto, using(crate::proofs::Depths::kept))]
pub fn answered(m: &mut State, depth: usize, answer: Result<Held, Kind>)
    requires { length m.old.values.items < m.old.values.room }
    ensures { m.new ≡ answered depth answer m.old }
{
    match answer {
        Ok(held) => {
            let count = m.values.len();
            m.values.keep(count.saturating_sub(depth));
            m.values.push(Item::Fresh(held));
        }
        Err(kind) => m.fail(kind),
    }
}

/// The value that such an instruction makes, or the kind of its error.
pub fn answer_of(m: &State, setting: &Setting, instr: Instr) -> Result<Held, Kind>
    ensures { result ≡ answer_to setting.now instr m.now }
{
    match instr {
        Instr::Number(number) => constant(setting.bounds, number),
        Instr::One => Ok(Held::int(1)),
        Instr::Truth(truth) => Ok(Held::logical(truth)),
        Instr::Load(slot) => read(&m.cells, m.extent(slot).first),
        Instr::Value => valued(&m.cells, &m.values.newest_or(no_item())),
        Instr::Negate => negated(setting.bounds, &value_at(&m.values, 0)),
        Instr::Raise(exponent) => power(setting.bounds, &value_at(&m.values, 0), exponent),
        Instr::Operation(sign) => operated(
            setting.bounds,
            sign,
            &value_at(&m.values, 1),
            &value_at(&m.values, 0),
        ),
        Instr::Comparison(sign) => Ok(Held::logical(compared(
            sign,
            &value_at(&m.values, 1),
            &value_at(&m.values, 0),
        ))),
        Instr::Negation => Ok(Held::logical(!value_at(&m.values, 0).holds())),
        Instr::Both => Ok(Held::logical(
            value_at(&m.values, 1).holds() && value_at(&m.values, 0).holds(),
        )),
        Instr::Either => Ok(Held::logical(
            value_at(&m.values, 1).holds() || value_at(&m.values, 0).holds(),
        )),
        Instr::BuiltIn(function, count) => intrinsic(&m.values, setting.bounds, function, count),
        _ => Ok(Held::undefined()),
    }
}
