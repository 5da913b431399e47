// The prover of closed goals.
ghost use Rattle.std.specs.Prelude.{◌≡◌, Some, IfOk};
ghost use Rattle.formula.specs.Adding.{AreAdded};
ghost use Rattle.formula.specs.Pool.{IsIn, tree_of};
ghost use Rattle.formula.specs.Values.{holds};
ghost use Rattle.formula.specs.Worth.{functions_of};
ghost use Rattle.prover_box.specs.Answers.{Seen};
ghost use Rattle.prover_box.specs.Tests.{is_true_closed};

use crate::Prover;
use edge_io::NoMemory;
use formula::{Definitions, TermId, TermPool, Value};
use fort_syntax::Condition;
use std::alloc::Global;
use term_worth::{Sheet, Worth, worth};

/// Closes a condition whose goal has no symbol and no entry value, and is worth something other than
/// F with 10,000 turns. Its letter is `G`, its test the first.
#[derive(Debug, Drop)]
pub struct Ground {
    asked: u64,
}

impl Ground {
    /// A prover that was not asked yet. It takes no memory.
    pub fn new() -> Ground
        ensures { result.asked ≡ 0 }
    {
        Ground { asked: 0 }
    }
}

fn is_true(value: &Value) -> bool
    ensures { result ≡ holds value.now }
{
    !matches!(value, Value::Logical(false))
}

/// Whether a goal passes the first test.
fn passes(
    alloc: Global,
    pool: &TermPool,
    definitions: &Definitions,
    goal: TermId,
) -> Result<bool, NoMemory>
    requires goal { IsIn pool.now goal }
    requires added { AreAdded pool.now definitions.now }
    ensures { IfOk result (λ closed. closed ≡ is_true_closed (functions_of pool.now definitions.now)
        (tree_of pool.now goal)) }
{
    if pool.has_symbol(goal) {
        return Ok(false);
    }
    let sheet = Sheet::new(alloc, pool.keys());
    match worth(alloc, pool, definitions, goal, &sheet, 10000) {
        Ok(value) => Ok(is_true(&value)),
        Err(Worth::Beyond) => Ok(false),
        Err(Worth::Spent) => Ok(false),
        Err(Worth::NoMemory) => Err(NoMemory),
    }
}

impl Prover for Ground {
    ghost use Rattle.std.specs.Prelude.{Some};
    ghost use Rattle.prover_box.specs.Answers.{Seen};

    ghost seen = { λ g. record { letter = 71; test = Some 1; asked = g.asked } };

    fn close(
        &mut self,
        alloc: Global,
        pool: &TermPool,
        definitions: &Definitions,
        c: &Condition,
    ) -> Result<bool, NoMemory> {
        self.asked = self.asked.saturating_add(1);
        passes(alloc, pool, definitions, c.goal)
    }

    fn letter(&self) -> u8 {
        b'G'
    }

    fn asked(&self) -> u64 {
        self.asked
    }
}
