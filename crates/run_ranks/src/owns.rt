// What each unit needs itself.
ghost use Rattle.std.specs.Prelude.{◌≡◌, ◌∷◌, [], ◌++◌, ◌+◌, length, IfOk, IfSome, OnOk};
ghost use Rattle.fort_syntax.specs.Names.{is_own};
ghost use Rattle.run_ranks.specs.Owns.{fixed_from, fixed_sizes, total_from, longest_from, own_rank, own_ranks};

use crate::ranks::UnitRank;
use edge_io::{List, NoMemory};
use fort_syntax::{DataName, Dim, Role, Unit};
use run_shapes::{LineCode, UnitCode};
use std::alloc::Global;

/// The product of the constants among dimensions, where there is such a number.
fn fixed_size(dims: &[Dim]) -> Option<usize>
    ensures { IfSome result (λ n. n ≡ fixed_from 1 dims.now) }
{
    let mut size: usize = 1;
    for dim in dims {
        if let Dim::Fixed(n) = dim {
            let Some(more) = size.checked_mul(*n as usize) else {
                return None;
            };
            size = more;
        }
    }
    Some(size)
}

fn is_own(role: Role) -> bool
    ensures { result ≡ is_own role }
{
    match role {
        Role::Dummy => false,
        Role::InCommon => false,
        Role::OwnValue => true,
        Role::Local => true,
    }
}

fn push(sizes: &mut Vec<usize>, size: usize) -> Result<(), NoMemory>
    ensures { OnOk result (sizes.new.items ≡ sizes.old.items ++ size ∷ []) }
{
    match sizes.push(size) {
        Ok(()) => Ok(()),
        Err(_) => Err(NoMemory),
    }
}

fn push_fixed(sizes: &mut Vec<usize>, dims: &[Dim]) -> Result<(), NoMemory>
    ensures { OnOk result (sizes.new.items ≡ sizes.old.items ++ fixed_from 1 dims.now ∷ []) }
{
    match fixed_size(dims) {
        Some(size) => push(sizes, size),
        None => Err(NoMemory),
    }
}

/// How many cells each own name has. A number of cells that no memory has is want of memory.
fn own_sizes(alloc: Global, names: &[DataName]) -> Result<Vec<usize>, NoMemory>
    ensures { IfOk result (λ sizes. sizes.items ≡ fixed_sizes names.now) }
{
    let mut sizes = Vec::new(alloc);
    for data in names {
        if is_own(data.role) {
            push_fixed(&mut sizes, data.dims.as_slice())?;
        }
    }
    Ok(sizes)
}

fn total(sizes: &[usize]) -> Option<usize>
    ensures { IfSome result (λ n. n ≡ total_from 0 sizes.now) }
{
    let mut sum: usize = 0;
    for size in sizes {
        let Some(more) = sum.checked_add(*size) else {
            return None;
        };
        sum = more;
    }
    Some(sum)
}

/// How many instructions the longest statement has.
fn longest(lines: &[LineCode]) -> usize
    ensures { result ≡ longest_from 0 lines.now }
{
    let mut most: usize = 0;
    for line in lines {
        most = most.max(line.stop.saturating_sub(line.start));
    }
    most
}

/// How many slots there are for so many dummies, own names and COMMON entities.
fn slots(dummies: usize, own: usize, shared: usize) -> Option<usize>
    ensures { IfSome result (λ n. n ≡ dummies + own + shared) }
{
    let Some(some) = dummies.checked_add(own) else {
        return None;
    };
    some.checked_add(shared)
}

/// What a unit needs itself.
fn own_rank(alloc: Global, unit: &Unit, code: &UnitCode) -> Result<UnitRank, NoMemory>
    ensures { IfOk result (λ r. r ≡ own_rank unit.now code.now) }
{
    let own = own_sizes(alloc, unit.names.as_slice())?;
    let Some(cells) = total(own.as_slice()) else {
        return Err(NoMemory);
    };
    let Some(slots) = slots(code.slots.dummies, own.len(), code.shared.as_slice().len()) else {
        return Err(NoMemory);
    };
    let long = longest(code.lines.as_slice());
    Ok(UnitRank {
        own: List::from_vec(own),
        cells,
        slots,
        long,
        frames: 0,
        values: long,
        names: slots,
        plain: cells,
        copies: 0,
    })
}

fn push_rank(ranks: &mut Vec<UnitRank>, rank: UnitRank) -> Result<(), NoMemory>
    ensures { OnOk result (ranks.new.items ≡ ranks.old.items ++ rank ∷ []) }
{
    match ranks.push(rank) {
        Ok(()) => Ok(()),
        Err(_) => Err(NoMemory),
    }
}

/// What each unit needs itself.
#[tactic(auto, using(crate::proofs::Owning::ends_codes, crate::proofs::Owning::ends_units))]
pub(crate) fn own_ranks(
    alloc: Global,
    units: &[Unit],
    codes: &[UnitCode],
) -> Result<Vec<UnitRank>, NoMemory>
    ensures { IfOk result (λ ranks. ranks.items ≡ own_ranks units.now codes.now) }
{
    let mut ranks = Vec::new(alloc);
    let mut i = 0;
    while i < units.len() && i < codes.len() {
        let rank = own_rank(alloc, &units[i], &codes[i])?;
        push_rank(&mut ranks, rank)?;
        i += 1;
    }
    Ok(ranks)
}
