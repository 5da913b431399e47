// Sizes so far.
ghost use Rattle.std.specs.Prelude.{◌≡◌, ◌≤◌};
ghost use Rattle.size_tallies.specs.Totals.{with_load};
ghost use Rattle.measure.specs.Sizes.{sizes_of};

use weight_caps::{Load, plus};

/// The numbers of paths and of conditions so far, and the weight of these; the last two as far as
/// the cap.
#[derive(Clone, Copy, Debug)]
pub(crate) struct Totals {
    pub(crate) paths: u32,
    pub(crate) conditions: u32,
    pub(crate) weight: u32,
}

impl Totals {
    /// With those of a path more.
    pub(crate) fn with(&self, load: Load) -> Totals
        requires { self.now.paths ≤ 4096 }
        ensures { sizes_of result ≡ with_load (sizes_of self.now) load }
    {
        let Load {
            running: _,
            conditions,
            weight,
        } = load;
        Totals {
            paths: self.paths + 1,
            conditions: plus(self.conditions, conditions),
            weight: plus(self.weight, weight),
        }
    }
}
