// Provers of a test's own.
use edge_io::NoMemory;
use formula::{Definitions, TermPool};
use fort_syntax::Condition;
use prover_box::{Prover, Subsumed};
use std::alloc::Global;

/// Answers as the prover of goals that stand among the hypotheses. Its letter is `Y`, and it tells no
/// test.
#[derive(Drop)]
pub struct Quiet {
    asked: u64,
    inner: Subsumed,
}

impl Quiet {
    /// A prover that was not asked yet. It takes no memory.
    pub fn new(alloc: Global) -> Quiet {
        Quiet {
            asked: 0,
            inner: Subsumed::new(alloc),
        }
    }
}

impl Prover for Quiet {
    ghost use Rattle.std.specs.Prelude.{None};
    ghost use Rattle.prover_box.specs.Answers.{Seen};

    ghost seen = { λ q. record { letter = 89; test = None; asked = q.asked } };

    fn close(
        &mut self,
        alloc: Global,
        pool: &TermPool,
        definitions: &Definitions,
        c: &Condition,
    ) -> Result<bool, NoMemory> {
        self.asked = self.asked.saturating_add(1);
        self.inner.close(alloc, pool, definitions, c)
    }

    fn letter(&self) -> u8 {
        b'Y'
    }

    fn asked(&self) -> u64 {
        self.asked
    }
}

/// Always says no. Its letter is `N`, and it tells no test.
#[derive(Drop)]
pub struct Never {
    asked: u64,
}

impl Never {
    /// A prover that was not asked yet. It takes no memory.
    pub fn new() -> Never {
        Never { asked: 0 }
    }
}

impl Prover for Never {
    ghost use Rattle.std.specs.Prelude.{None};
    ghost use Rattle.prover_box.specs.Answers.{Seen};

    ghost seen = { λ n. record { letter = 78; test = None; asked = n.asked } };

    fn close(
        &mut self,
        _alloc: Global,
        _pool: &TermPool,
        _definitions: &Definitions,
        _c: &Condition,
    ) -> Result<bool, NoMemory> {
        self.asked = self.asked.saturating_add(1);
        Ok(false)
    }

    fn letter(&self) -> u8 {
        b'N'
    }

    fn asked(&self) -> u64 {
        self.asked
    }
}
