// The prover of goals that stand among the hypotheses.
ghost use Rattle.std.specs.Prelude.{◌≡◌, ◌↔◌, ◌⊎◌, true, false, [], ◌∷◌, ◌++◌, length, map, Contains, OnOk};
ghost use Rattle.event_text.specs.Conditions.{IsConditionIn};
ghost use Rattle.formula.specs.declared.function.BuiltIn.TheVariants as built_in;
ghost use Rattle.formula.specs.declared.function.Func.TheVariants as func;
ghost use Rattle.formula.specs.Pool.{AllBelow, IsIn, tree_of};
ghost use Rattle.formula.specs.Tree.{Tree, truth, apply, none, more};
ghost use Rattle.prover_box.specs.Tests.{IsSubsumed};

use crate::Prover;
use edge_io::NoMemory;
use formula::{BuiltIn, Definitions, Func, Node, TermId, TermPool};
use fort_syntax::Condition;
use std::alloc::Global;

/// Closes a condition whose goal, or F, is a hypothesis, or whose goal is T or an equation with one
/// term twice. Its letter is `S`, its test the second. It keeps the goals that it closed.
#[derive(Debug, Drop)]
pub struct Subsumed {
    asked: u64,
    kept: Vec<TermId>,
}

impl Subsumed {
    /// A prover that was not asked yet and keeps no goal. It takes no memory.
    pub fn new(alloc: Global) -> Subsumed
        ensures asked { result.asked ≡ 0 }
        ensures kept { result.kept.items ≡ [] }
    {
        Subsumed {
            asked: 0,
            kept: Vec::new(alloc),
        }
    }

    /// The goals of the conditions that it closed, in order. No answer depends on them.
    pub fn kept(&self) -> &[TermId]
        ensures { result.now ≡ self.now.kept.items }
    {
        self.kept.as_slice()
    }

    /// Puts a goal to those kept.
    fn keep(&mut self, goal: TermId) -> Result<(), NoMemory>
        ensures asked { self.new.asked ≡ self.old.asked }
        ensures kept { OnOk result (self.new.kept.items ≡ self.old.kept.items ++ goal ∷ []) }
    {
        let Ok(()) = self.kept.push(goal) else {
            return Err(NoMemory);
        };
        Ok(())
    }
}

/// Whether a term is T or F, as told.
fn is_truth(pool: &TermPool, id: TermId, b: bool) -> bool
    requires { IsIn pool.now id }
    ensures { (result ≡ true) ↔ (tree_of pool.now id ≡ truth b) }
{
    match pool.node(id) {
        Node::Truth(c) => *c == b,
        _ => false,
    }
}

/// Whether two terms are one.
fn is_same(pool: &TermPool, a: TermId, b: TermId) -> bool
    requires a { IsIn pool.now a }
    requires b { IsIn pool.now b }
    ensures { (result ≡ true) ↔ (tree_of pool.now a ≡ tree_of pool.now b) }
{
    // What it ensures tells that no two ids have one node.
    let _count = pool.count();
    a.index() == b.index()
}

/// Whether a hypothesis is the goal, or F.
fn is_goal_or_false(pool: &TermPool, hyp: TermId, goal: TermId) -> bool
    requires hyp { IsIn pool.now hyp }
    requires goal { IsIn pool.now goal }
    ensures { (result ≡ true) ↔ ((tree_of pool.now hyp ≡ tree_of pool.now goal)
        ⊎ (tree_of pool.now hyp ≡ truth false)) }
{
    is_same(pool, hyp, goal) || is_truth(pool, hyp, false)
}

/// Whether a term is an equation with one term twice.
fn is_equal_twice(pool: &TermPool, id: TermId) -> bool
    requires { IsIn pool.now id }
    ensures { (result ≡ true) ↔ ((t : Tree) × (tree_of pool.now id ≡ apply
        (func.BuiltIn built_in.Equal) (more t (more t none)))) }
{
    match pool.node(id) {
        Node::Apply(Func::BuiltIn(BuiltIn::Equal), args) => match args.as_slice() {
            [a, b] => is_same(pool, *a, *b),
            _ => false,
        },
        _ => false,
    }
}

/// Whether a goal, or F, is among hypotheses.
fn stands_among(pool: &TermPool, hyps: &[TermId], goal: TermId) -> bool
    requires hyps { AllBelow (length pool.now) hyps.now }
    requires goal { IsIn pool.now goal }
    ensures { (result ≡ true) ↔ (Contains (map (tree_of pool.now) hyps.now) (tree_of pool.now goal)
        ⊎ Contains (map (tree_of pool.now) hyps.now) (truth false)) }
{
    for hyp in hyps {
        if is_goal_or_false(pool, *hyp, goal) {
            return true;
        }
    }
    false
}

/// Whether a condition passes the second test.
fn passes(pool: &TermPool, c: &Condition) -> bool
    requires { IsConditionIn pool.now c.now }
    ensures { (result ≡ true) ↔ IsSubsumed (map (tree_of pool.now) c.now.hyps) (tree_of pool.now c.now.goal) }
{
    if stands_among(pool, c.hyps.as_slice(), c.goal) {
        return true;
    }
    if is_truth(pool, c.goal, true) {
        return true;
    }
    is_equal_twice(pool, c.goal)
}

impl Prover for Subsumed {
    ghost use Rattle.std.specs.Prelude.{Some};
    ghost use Rattle.prover_box.specs.Answers.{Seen};

    ghost seen = { λ s. record { letter = 83; test = Some 2; asked = s.asked } };

    fn close(
        &mut self,
        _alloc: Global,
        pool: &TermPool,
        _definitions: &Definitions,
        c: &Condition,
    ) -> Result<bool, NoMemory> {
        self.asked = self.asked.saturating_add(1);
        let closed = passes(pool, c);
        if closed {
            self.keep(c.goal)?;
        }
        Ok(closed)
    }

    fn letter(&self) -> u8 {
        b'S'
    }

    fn asked(&self) -> u64 {
        self.asked
    }
}
