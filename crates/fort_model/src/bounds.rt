// The integers of a processor.
ghost use Rattle.std.specs.Prelude.{◌↔◌, IsSome, IfSome, ◌≡◌};
ghost use Rattle.fort_model.specs.Processor.{Reaches};

/// The least and the greatest integer that a processor has.
#[derive(Clone, Copy, Debug, PartialEq, Eq)]
pub struct Bounds {
    pub least: i64,
    pub greatest: i64,
}

/// The processor's integers, where they go at least from `-bound` to `bound`. It takes no memory.
pub fn processor(least: i64, greatest: i64, bound: u64) -> Option<Bounds>
    ensures some { IsSome result ↔ Reaches least greatest bound }
    ensures value { IfSome result (λ b. (b.least ≡ least) × (b.greatest ≡ greatest)) }
{
    let reach = i128::from(bound);
    if i128::from(least) > -reach || i128::from(greatest) < reach {
        return None;
    }
    Some(Bounds { least, greatest })
}
