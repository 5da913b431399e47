// Operands by their weights.
ghost use Rattle.std.specs.Prelude.{◌≡◌, map, IfOk};
ghost use Rattle.fort_model.specs.WalkCalls.{stands_for};
ghost use Rattle.weight_calls.specs.Operands.{bare_of, operand_of};

use edge_io::NoMemory;
use fort_syntax::Name;
use std::alloc::Global;

/// An operand that is not read yet, a bare name or an element, or one that is computed; with its
/// weight.
#[derive(Clone, Copy, Debug)]
pub enum Operand {
    Bare(Name, u32),
    Part(u32),
    Computed(u32),
}

impl Operand {
    /// Its weight.
    pub fn weight(&self) -> u32
        ensures { result ≡ stands_for (operand_of self.now) }
    {
        match self {
            Operand::Bare(_, weight) => *weight,
            Operand::Part(weight) => *weight,
            Operand::Computed(weight) => *weight,
        }
    }

    /// Its name, where it is a bare one.
    pub(crate) fn bare(&self) -> Option<Name>
        ensures { result ≡ bare_of (operand_of self.now) }
    {
        match self {
            Operand::Bare(name, _) => Some(*name),
            Operand::Part(_) => None,
            Operand::Computed(_) => None,
        }
    }
}

/// The weights of operands, in order.
pub(crate) fn weights_of(alloc: Global, operands: &[Operand]) -> Result<Vec<u32>, NoMemory>
    ensures { IfOk result (λ ns. ns.items ≡ map stands_for (map operand_of operands.now)) }
{
    let mut weights = Vec::new(alloc);
    for operand in operands {
        let Ok(()) = weights.push(operand.weight()) else {
            return Err(NoMemory);
        };
    }
    Ok(weights)
}

/// The names of operands, where they are bare ones, in order.
pub(crate) fn bare_names(alloc: Global, operands: &[Operand]) -> Result<Vec<Option<Name>>, NoMemory>
    ensures { IfOk result (λ bs. bs.items ≡ map bare_of (map operand_of operands.now)) }
{
    let mut names = Vec::new(alloc);
    for operand in operands {
        let Ok(()) = names.push(operand.bare()) else {
            return Err(NoMemory);
        };
    }
    Ok(names)
}
