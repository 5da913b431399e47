// What the tests of a definition that is added say of a term.
ghost use Rattle.std.specs.Prelude.{◌≡◌, ◌+◌, length, IfOk, List};
ghost use Rattle.formula.specs.Adding.{first_is_one_less, is_one_less, counts_down};
ghost use Rattle.formula.specs.Headings.{heading_with, is_headed};
ghost use Rattle.formula.specs.Passing.{all_pass, both, function_results, is_that_number, is_that_symbol, names_are_own, term_results, top_results, use_results};
ghost use Rattle.formula.specs.Pool.{AllBelow, IsIn, row_in, tree_of, trees};
ghost use Rattle.formula.specs.Tree.{Tree, apply};
ghost use Rattle.std.specs.Prelude.{◌++◌, [], ◌∷◌};

use crate::candidate::Candidate;
use crate::{BuiltIn, Func, Node, TermId, TermPool, Word, order_of};
use edge_io::NoMemory;
use std::alloc::Global;

/// Which tests a term of a definition passes.
#[derive(Clone, Copy, Debug)]
pub struct TestResults {
    /// Each use is of an earlier definition or of the one that is added.
    pub known_uses: bool,
    /// Each use has as many arguments as its definition has parameters.
    pub right_counts: bool,
    /// No use is of the definition that is added.
    pub other_uses: bool,
    /// Each use of the definition that is added has the first parameter less 1 as its first argument.
    pub counts_down: bool,
    /// Each symbol is a parameter, and there is no entry value.
    pub own_names: bool,
}

/// All tests are passed where a term has no names but parameters.
fn names_are_own(own_names: bool) -> TestResults
    ensures { result ≡ names_are_own own_names }
{
    TestResults {
        known_uses: true,
        right_counts: true,
        other_uses: true,
        counts_down: true,
        own_names,
    }
}

/// The tests that two terms pass.
fn both(a: TestResults, b: TestResults) -> TestResults
    ensures { result ≡ both a b }
{
    TestResults {
        known_uses: a.known_uses && b.known_uses,
        right_counts: a.right_counts && b.right_counts,
        other_uses: a.other_uses && b.other_uses,
        counts_down: a.counts_down && b.counts_down,
        own_names: a.own_names && b.own_names,
    }
}

/// Whether a term is that symbol.
fn is_that_symbol(pool: &TermPool, id: TermId, wanted: Word) -> bool
    requires { IsIn pool.now id }
    ensures { result ≡ is_that_symbol wanted (tree_of pool.now id) }
{
    match pool.node(id) {
        Node::Symbol(name) => wanted == *name,
        _ => false,
    }
}

/// Whether a term is that number.
fn is_that_number(pool: &TermPool, id: TermId, wanted: i128) -> bool
    requires { IsIn pool.now id }
    ensures { result ≡ is_that_number wanted (tree_of pool.now id) }
{
    match pool.node(id) {
        Node::Num(n) => *n == wanted,
        _ => false,
    }
}

#[tactic(auto, using(crate::proofs::Passes::other_arguments))]
/// Whether the difference of some arguments is a word less 1.
fn are_word_and_one(pool: &TermPool, word: Word, args: &[TermId]) -> bool
    requires { AllBelow (length pool.now) args.now }
    ensures { result ≡ is_one_less word (apply (Func.BuiltIn BuiltIn.Difference)
        (row_in (trees pool.now) args.now)) }
{
    let [a, b] = args else {
        return false;
    };
    is_that_symbol(pool, *a, word) && is_that_number(pool, *b, 1)
}

#[tactic(auto, using(crate::proofs::Passes::other_function))]
/// Whether a term is a word less 1.
fn is_one_less(pool: &TermPool, word: Word, id: TermId) -> bool
    requires { IsIn pool.now id }
    ensures { result ≡ is_one_less word (tree_of pool.now id) }
{
    match pool.node(id) {
        Node::Apply(Func::BuiltIn(BuiltIn::Difference), args) => {
            are_word_and_one(pool, word, args.as_slice())
        }
        _ => false,
    }
}

/// Whether the first argument is the first parameter less 1.
fn first_is_one_less(pool: &TermPool, params: &[Word], args: &[TermId]) -> bool
    requires { AllBelow (length pool.now) args.now }
    ensures { result ≡ first_is_one_less params.now (row_in (trees pool.now) args.now) }
{
    let [param, ..] = params else {
        return false;
    };
    let [id, ..] = args else {
        return false;
    };
    is_one_less(pool, *param, *id)
}

#[tactic(auto, using(crate::proofs::Passes::own_count, crate::proofs::Passes::no_count, crate::proofs::Passes::far_count, crate::proofs::Passes::earlier_count))]
/// Whether a use has as many arguments as its definition has parameters.
fn is_right_count(candidate: &Candidate<'_>, k: usize, count: usize) -> bool
    ensures { (ts : List Tree) (args : List TermId) → length args ≡ count
        → result ≡ is_headed (candidate.now.earlier.now ++ heading_with candidate.now.name
        candidate.now.params.now ∷ []) k (row_in ts args) }
{
    let last = candidate.number();
    if k == last {
        return candidate.params.len() == count;
    }
    if k == 0 || k > last {
        return false;
    }
    candidate.earlier.get(k).count == count
}

#[tactic(auto, using(crate::proofs::Passes::known_use))]
/// What the tests say of a use of the definition of number k.
fn use_results(pool: &TermPool, candidate: &Candidate<'_>, k: usize, args: &[TermId]) -> TestResults
    requires { AllBelow (length pool.now) args.now }
    ensures { result ≡ use_results candidate.now.earlier.now candidate.now.name
        candidate.now.params.now k (row_in (trees pool.now) args.now) }
{
    let own = candidate.number();
    TestResults {
        known_uses: 0 < k && k <= own,
        right_counts: is_right_count(candidate, k, args.len()),
        other_uses: k != own,
        counts_down: k != own || first_is_one_less(pool, candidate.params, args),
        own_names: true,
    }
}

/// What the tests say of a function, its arguments aside.
fn function_results(
    pool: &TermPool,
    candidate: &Candidate<'_>,
    f: Func,
    args: &[TermId],
) -> TestResults
    requires { AllBelow (length pool.now) args.now }
    ensures { result ≡ function_results candidate.now.earlier.now candidate.now.name
        candidate.now.params.now f (row_in (trees pool.now) args.now) }
{
    match f {
        Func::BuiltIn(_) => names_are_own(true),
        Func::Defined(k) => use_results(pool, candidate, k, args),
    }
}

/// What the tests say of a term, what stands below its function aside.
fn top_results(pool: &TermPool, candidate: &Candidate<'_>, id: TermId) -> TestResults
    requires { IsIn pool.now id }
    ensures { result ≡ top_results candidate.now.earlier.now candidate.now.name
        candidate.now.params.now (tree_of pool.now id) }
{
    match pool.node(id) {
        Node::Num(_) | Node::Truth(_) => names_are_own(true),
        Node::Symbol(name) => names_are_own(candidate.has_parameter(*name)),
        Node::Old(_) => names_are_own(false),
        Node::Apply(f, args) => function_results(pool, candidate, *f, args.as_slice()),
    }
}

/// What the tests say of a term. It takes time and memory in the number of nodes that the term
/// reaches, however often a term below stands in it.
pub fn term_results(
    alloc: Global,
    pool: &TermPool,
    candidate: &Candidate<'_>,
    id: TermId,
) -> Result<TestResults, NoMemory>
    requires { IsIn pool.now id }
    ensures { IfOk result (λ r. r ≡ term_results candidate.now.earlier.now candidate.now.name
        candidate.now.params.now (tree_of pool.now id)) }
{
    prove!(id.index() < pool.count());
    let ids = order_of(alloc, pool, id)?;
    let mut results = names_are_own(true);
    for here in ids.as_slice() {
        results = both(results, top_results(pool, candidate, *here));
    }
    Ok(results)
}
