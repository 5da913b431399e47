// The instruction of a call.
ghost use Rattle.std.specs.Prelude.{◌≡◌, IfSome, slice_get};
ghost use Rattle.run_calls.specs.Calls.{called_at, called_of, referred, IsReadyFor};

use crate::passing::call;
use run_shapes::{CallCode, Code, UnitCode};
use run_state::{Setting, State};

/// Calls the unit of a number, where there is one.
fn call_unit(m: &mut State, code: &Code, setting: &Setting, unit: &UnitCode, site: CallCode)
    requires { IsReadyFor m.old site }
    ensures { m.new ≡ called_of code.now setting.now unit.now site site.callee m.old }
{
    match site.callee {
        None => m.lose(),
        Some(callee) => {
            if callee < code.units.as_slice().len() {
                call(m, setting, &unit.name, site, callee);
            } else {
                m.lose();
            }
        }
    }
}

/// Begins the call at a place in a unit's table of calls.
pub fn refer(m: &mut State, code: &Code, setting: &Setting, unit: &UnitCode, place: usize)
    requires { IfSome (slice_get unit.now.calls place) (IsReadyFor m.old) }
    ensures { m.new ≡ referred code.now setting.now unit.now (slice_get unit.now.calls place) m.old }
{
    match unit.calls.as_slice().get(place) {
        None => m.lose(),
        Some(site) => call_unit(m, code, setting, unit, *site),
    }
}
