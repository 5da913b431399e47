// An operand, and what some of them are of.
ghost use Rattle.std.specs.Prelude.{◌≡◌, map, IfOk};
ghost use Rattle.walk_operands.specs.Operands as told;

use edge_io::NoMemory;
use formula::TermId;
use fort_syntax::Name;
use std::alloc::Global;

/// An operand of an expression, not read yet: a bare name or an element of an array, with the term
/// that it stands for; or something computed.
#[derive(Clone, Copy, Debug)]
pub enum Operand {
    Bare(Name, TermId),
    Part(TermId),
    Computed(TermId),
}

impl Operand {
    /// The term that it stands for.
    pub fn term(&self) -> TermId
        ensures { result ≡ told.term_of self.now }
    {
        match self {
            Operand::Bare(_, term) => *term,
            Operand::Part(term) => *term,
            Operand::Computed(term) => *term,
        }
    }

    /// Its name, where it is a bare one.
    pub fn bare_name(&self) -> Option<Name>
        ensures { result ≡ told.name_of self.now }
    {
        match self {
            Operand::Bare(name, _) => Some(*name),
            Operand::Part(_) => None,
            Operand::Computed(_) => None,
        }
    }
}

/// The terms that operands stand for, in order.
pub fn terms_of(alloc: Global, operands: &[Operand]) -> Result<Vec<TermId>, NoMemory>
    ensures { IfOk result (λ terms. terms.items ≡ map told.term_of operands.now) }
{
    let mut all = Vec::new(alloc);
    for operand in operands {
        let Ok(()) = all.push(operand.term()) else {
            return Err(NoMemory);
        };
    }
    Ok(all)
}

/// For each operand its name where it is a bare one, in order.
pub fn bare_names(alloc: Global, operands: &[Operand]) -> Result<Vec<Option<Name>>, NoMemory>
    ensures { IfOk result (λ names. names.items ≡ map told.name_of operands.now) }
{
    let mut all = Vec::new(alloc);
    for operand in operands {
        let Ok(()) = all.push(operand.bare_name()) else {
            return Err(NoMemory);
        };
    }
    Ok(all)
}
