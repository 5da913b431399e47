// Settings of RUN cards.
ghost use Rattle.std.specs.Prelude.{◌≡◌, IfOk};
ghost use Rattle.run_eval.specs.Performed.{setting_of};

use edge_io::{List, NoMemory};
use fort_model::Bounds;
use fort_notes::{Passing, RunCard};
use run_state::Setting;
use std::alloc::Global;

/// A way of passing arguments once more.
fn copied(alloc: Global, passing: &Passing) -> Result<Passing, NoMemory>
    ensures { IfOk result (λ p. p ≡ passing.now) }
{
    match passing {
        Passing::Reference => Ok(Passing::Reference),
        Passing::Copy => Ok(Passing::Copy),
        Passing::Listed(sites) => {
            let Ok(sites) = Vec::from_slice(alloc, sites.as_slice()) else {
                return Err(NoMemory);
            };
            Ok(Passing::Listed(List::from_vec(sites)))
        }
    }
}

/// How the processor of a card runs a deck.
pub fn setting_of(alloc: Global, card: &RunCard) -> Result<Setting, NoMemory>
    ensures { IfOk result (λ s. s ≡ setting_of card.now) }
{
    let Ok(passing) = copied(alloc, &card.passing) else {
        return Err(NoMemory);
    };
    Ok(Setting {
        bounds: Bounds {
            least: card.least,
            greatest: card.greatest,
        },
        lazy: card.lazy,
        passing,
    })
}
