// What a prover is.
ghost use Rattle.std.specs.Prelude.{◌≡◌, IfOk};
ghost use Rattle.event_text.specs.Conditions.{IsConditionIn};
ghost use Rattle.formula.specs.Adding.{AreAdded};
ghost use Rattle.prover_box.specs.Answers.{Seen, once_more, IsAnswer};

use edge_io::NoMemory;
use formula::{Definitions, TermPool};
use fort_syntax::Condition;
use std::alloc::Global;

/// A prover. Contracts see of it a letter, the number of its test where it tells one, and how often
/// it was asked.
pub trait Prover: Drop {
    ghost seen: { Self → Seen };

    /// Whether it proves a condition, whose terms are in the pool, with definitions that were added.
    /// A yes is right: no assignment makes the condition false. One that tells its test says yes
    /// just where the condition passes it. Its count goes up by one, or stays at its last value.
    fn close(
        &mut self,
        alloc: Global,
        pool: &TermPool,
        definitions: &Definitions,
        c: &Condition,
    ) -> Result<bool, NoMemory>
        requires terms { IsConditionIn pool.now c.now }
        requires added { AreAdded pool.now definitions.now }
        ensures answer { IfOk result (λ closed. IsAnswer pool.now definitions.now c.now
            (seen self.old).test closed) }
        ensures counted { seen self.new ≡ once_more (seen self.old) };

    /// Its letter.
    fn letter(&self) -> u8
        ensures { result ≡ (seen self.now).letter };

    /// How often it was asked.
    fn asked(&self) -> u64
        ensures { result ≡ (seen self.now).asked };
}
