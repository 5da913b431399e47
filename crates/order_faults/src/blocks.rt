// Block IFs in their order.
ghost use Rattle.std.specs.Prelude.{◌≡◌, ◌+◌, ◌<◌, ◌^◌, List, [], IfOk};
ghost use Rattle.fort_syntax.specs.Units.{Segment};
ghost use Rattle.fort_syntax.specs.OrderRules.{places_in, blocks_behind};
ghost use Rattle.fort_syntax.specs.UnitRules.{block_rules, fault_in_stage};
ghost use Rattle.fort_syntax.specs.declared.dialect.Dialect.{Dialect};
ghost use Rattle.order_faults.specs.BlockScans.{is_misplaced, before_misplaced, is_unclosed, ends_with, before_unclosed, sooner, fault_behind, block_scan};

use edge_io::{NoMemory, Stack};
use fort_syntax::{Fault, Line, Rule, Stmt};
use std::alloc::Global;

/// Passes a statement: whether no block IF is open for it.
fn pass(blocks: &mut Stack<bool>, stmt: &Stmt) -> Result<bool, NoMemory>
    ensures bad { IfOk result (λ bad. bad ≡ is_misplaced stmt.now blocks.old) }
    ensures behind { IfOk result (λ _. blocks.new ≡ blocks_behind stmt.now blocks.old) }
{
    match stmt {
        Stmt::BlockIf(_) => {
            blocks.push(false)?;
            Ok(false)
        }
        Stmt::ElseIf(_) => match blocks.pop() {
            None => Ok(true),
            Some(had) => {
                blocks.push(had)?;
                Ok(had)
            }
        },
        Stmt::Else => match blocks.pop() {
            None => Ok(true),
            Some(had) => {
                blocks.push(true)?;
                Ok(had)
            }
        },
        Stmt::EndIf => Ok(blocks.pop().is_none()),
        _ => Ok(false),
    }
}

/// How many statements stand before the first that no block IF is open for.
fn before_misplaced(alloc: Global, unit: &[Line]) -> Result<usize, NoMemory>
    ensures value { IfOk result (λ n. n ≡ before_misplaced [] unit.now) }
{
    let mut blocks = Stack::new(alloc);
    for i in 0..unit.len() {
        let Ok(bad) = pass(&mut blocks, &unit[i].stmt) else {
            return Err(NoMemory);
        };
        if bad {
            return Ok(i);
        }
    }
    Ok(unit.len())
}

/// Passes a statement from behind: whether it is a block IF without an end.
fn pass_back(count: &mut usize, stmt: &Stmt) -> bool
    requires fits { count.old + 1 < 2 ^ 63 }
    ensures bad { result ≡ is_unclosed stmt.now count.old }
    ensures count { count.new ≡ ends_with stmt.now count.old }
{
    match stmt {
        Stmt::BlockIf(_) => {
            if *count == 0 {
                return true;
            }
            *count -= 1;
            false
        }
        Stmt::EndIf => {
            *count += 1;
            false
        }
        _ => false,
    }
}

/// How many statements stand before the first block IF without an end.
fn before_unclosed(unit: &[Line]) -> usize
    ensures value { result ≡ before_unclosed unit.now }
{
    let mut found = unit.len();
    let mut count = 0;
    let mut i = unit.len();
    while i > 0 {
        i -= 1;
        if pass_back(&mut count, &unit[i].stmt) {
            found = i;
        }
    }
    found
}

#[tactic(auto, using(crate::proofs::BlockFaults::sooner_is))]
fn sooner(a: usize, b: usize) -> usize
    ensures { result ≡ sooner a b }
{
    if a < b { a } else { b }
}

/// The first fault of a unit: it is told on the first statement that breaks the rule.
pub(crate) fn scan_blocks(alloc: Global, unit: &[Line]) -> Result<Option<Fault>, NoMemory>
    ensures { IfOk result (λ fault. fault ≡ block_scan [] unit.now) }
{
    let Ok(misplaced) = before_misplaced(alloc, unit) else {
        return Err(NoMemory);
    };
    Ok(fault_behind(sooner(misplaced, before_unclosed(unit)), unit))
}

/// The first fault of a unit by the rule on block IFs.
#[tactic(auto, using(crate::proofs::BlockFaults::found))]
pub fn block_fault(alloc: Global, unit: &[Line]) -> Result<Option<Fault>, NoMemory>
    ensures { IfOk result (λ fault. (dialect : Dialect) (earlier : List Segment)
        → fault ≡ fault_in_stage block_rules (places_in dialect earlier unit.now [] unit.now)) }
{
    scan_blocks(alloc, unit)
}

#[tactic(auto, using(crate::proofs::BlockFaults::fault_at, crate::proofs::BlockFaults::no_fault))]
fn fault_behind(count: usize, unit: &[Line]) -> Option<Fault>
    ensures { result ≡ fault_behind count unit.now }
{
    if count < unit.len() {
        Some(Fault {
            rule: Rule::BadBlockIf,
            card: unit[count].card,
        })
    } else {
        None
    }
}
