// Which arguments pass by copy.
ghost use Rattle.std.specs.Prelude.{◌≡◌};
ghost use Rattle.std.specs.List.{list_any};
ghost use Rattle.run_state.specs.Settings.{copies_by, is_site};

use fort_notes::{Passing, Site};
use fort_syntax::Name;
use run_state::Setting;

/// Whether a site is that of an argument of a call in a unit.
fn is_site(site: &Site, unit: &Name, call: usize, place: usize) -> bool
    ensures { result ≡ is_site unit.now call place site.now }
{
    site.unit == *unit && site.call == call as u64 && site.place == place as u64
}

/// Whether one of some sites is that of an argument of a call in a unit.
fn is_listed(sites: &[Site], unit: &Name, call: usize, place: usize) -> bool
    ensures { result ≡ list_any (is_site unit.now call place) sites.now }
{
    for site in sites {
        if is_site(site, unit, call, place) {
            return true;
        }
    }
    false
}

/// Whether an argument of a call in a unit passes by copy.
pub(crate) fn copies(setting: &Setting, unit: &Name, call: usize, place: usize) -> bool
    ensures { result ≡ copies_by setting.now.passing unit.now call place }
{
    match &setting.passing {
        Passing::Reference => false,
        Passing::Copy => true,
        Passing::Listed(sites) => is_listed(sites.as_slice(), unit, call, place),
    }
}
