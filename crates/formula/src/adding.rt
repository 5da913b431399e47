// The first fault of a definition that is added.
ghost use Rattle.std.specs.Prelude.{◌≡◌, IfOk};
ghost use Rattle.formula.specs.Adding.{IsBodyIn, adding_fault};
ghost use Rattle.formula.specs.Atoms.{has_twin};
ghost use Rattle.formula.specs.Passing.{body_results};
ghost use Rattle.formula.specs.Worth.{body_of};

use crate::candidate::Candidate;
use crate::passing::term_results;
use crate::{Body, DefFault, TermPool, head_of};
use edge_io::NoMemory;
use std::alloc::Global;

/// What the tests say of a body.
#[derive(Clone, Copy, Debug)]
pub struct BodyResults {
    /// Each use is of an earlier definition or of the one that is added.
    pub known_uses: bool,
    /// Each use has as many arguments as its definition has parameters.
    pub right_counts: bool,
    /// The definition uses itself only where it counts down.
    pub recurs_well: bool,
    /// Each symbol is a parameter, and there is no entry value.
    pub own_names: bool,
}

/// What the tests say of the body of a candidate.
fn body_results(
    alloc: Global,
    pool: &TermPool,
    candidate: &Candidate<'_>,
    body: Body,
) -> Result<BodyResults, NoMemory>
    requires { IsBodyIn pool.now body }
    ensures { IfOk result (λ r. r ≡ body_results candidate.now.earlier.now candidate.now.name
        candidate.now.params.now (body_of pool.now body)) }
{
    match body {
        Body::Plain(term) => {
            let results = term_results(alloc, pool, candidate, term)?;
            Ok(BodyResults {
                known_uses: results.known_uses,
                right_counts: results.right_counts,
                recurs_well: results.other_uses,
                own_names: results.own_names,
            })
        }
        Body::Counting(base, step) => {
            let first = term_results(alloc, pool, candidate, base)?;
            let second = term_results(alloc, pool, candidate, step)?;
            let counts = first.other_uses && second.counts_down;
            Ok(BodyResults {
                known_uses: first.known_uses && second.known_uses,
                right_counts: first.right_counts && second.right_counts,
                recurs_well: !candidate.params.is_empty() && counts,
                own_names: first.own_names && second.own_names,
            })
        }
    }
}

/// The first fault of a definition behind earlier ones; `twin` says whether some parameter stands
/// twice.
pub fn fault_of(
    alloc: Global,
    pool: &TermPool,
    candidate: &Candidate<'_>,
    twin: bool,
    body: Body,
) -> Result<Option<DefFault>, NoMemory>
    requires body { IsBodyIn pool.now body }
    requires twin { twin ≡ has_twin candidate.now.params.now }
    ensures { IfOk result (λ f. f ≡ adding_fault candidate.now.earlier.now candidate.now.name
        candidate.now.params.now (body_of pool.now body)) }
{
    if head_of(candidate.earlier, None, candidate.name.as_bytes()).is_some() {
        return Ok(Some(DefFault::KnownName));
    }
    let results = body_results(alloc, pool, candidate, body)?;
    if !results.known_uses {
        return Ok(Some(DefFault::UnknownFunction));
    }
    if !results.right_counts {
        return Ok(Some(DefFault::BadCount));
    }
    if !results.recurs_well {
        return Ok(Some(DefFault::BadRecursion));
    }
    if !results.own_names {
        return Ok(Some(DefFault::FreeName));
    }
    if twin {
        return Ok(Some(DefFault::SameParameter));
    }
    Ok(None)
}
