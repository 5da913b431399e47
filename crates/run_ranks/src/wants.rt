// What units want with those that they call.
ghost use Rattle.std.specs.Prelude.{◌≡◌, ◌+◌, max, IfSome, slice_get};
ghost use Rattle.run_ranks.specs.Raised.{own_wants, with_callee, with_pair, with_call, with_calls, settled};

use crate::ranks::UnitRank;
use run_shapes::{CallCode, UnitCode};

/// What a unit wants with those that it calls.
#[derive(Clone, Copy, Debug)]
pub(crate) struct Wants {
    pub frames: usize,
    pub values: usize,
    pub names: usize,
    pub plain: usize,
    pub copies: usize,
}

/// The greater of a number and a sum, where there is such a number.
fn greater(most: usize, a: usize, b: usize) -> Option<usize>
    ensures { IfSome result (λ n. n ≡ max most (a + b)) }
{
    match a.checked_add(b) {
        Some(sum) => Some(most.max(sum)),
        None => None,
    }
}

/// What a unit wants with a call of a unit that has so many dummies.
fn with_callee(rank: &UnitRank, wants: Wants, dummies: usize, callee: &UnitRank) -> Option<Wants>
    ensures { IfSome result (λ w. w ≡ with_callee rank.now wants dummies callee.now) }
{
    let Some(frames) = greater(wants.frames, callee.frames, 1) else {
        return None;
    };
    let Some(values) = greater(wants.values, rank.long, callee.values) else {
        return None;
    };
    let Some(names) = greater(wants.names, rank.slots, callee.names) else {
        return None;
    };
    let Some(plain) = greater(wants.plain, rank.cells, callee.plain) else {
        return None;
    };
    let Some(copies) = greater(wants.copies, dummies, callee.copies) else {
        return None;
    };
    Some(Wants {
        frames,
        values,
        names,
        plain,
        copies,
    })
}

/// What a unit wants with a call of the unit of a number.
fn with_number(
    codes: &[UnitCode],
    ranks: &[UnitRank],
    rank: &UnitRank,
    wants: Wants,
    j: usize,
) -> Option<Wants>
    ensures { IfSome result (λ w. w ≡ with_pair rank.now wants (slice_get codes.now j)
        (slice_get ranks.now j)) }
{
    if j >= codes.len() || j >= ranks.len() {
        return Some(wants);
    }
    with_callee(rank, wants, codes[j].slots.dummies, &ranks[j])
}

fn with_call(
    codes: &[UnitCode],
    ranks: &[UnitRank],
    rank: &UnitRank,
    wants: Wants,
    callee: Option<usize>,
) -> Option<Wants>
    ensures { IfSome result (λ w. w ≡ with_call codes.now ranks.now rank.now wants callee) }
{
    match callee {
        Some(j) => with_number(codes, ranks, rank, wants, j),
        None => Some(wants),
    }
}

/// What a unit wants without calls.
fn own_wants(rank: &UnitRank) -> Wants
    ensures { result ≡ own_wants rank.now }
{
    Wants {
        frames: 0,
        values: rank.long,
        names: rank.slots,
        plain: rank.cells,
        copies: 0,
    }
}

/// What a unit wants with all its calls.
pub(crate) fn with_calls(
    codes: &[UnitCode],
    ranks: &[UnitRank],
    rank: &UnitRank,
    calls: &[CallCode],
) -> Option<Wants>
    ensures { IfSome result (λ w. w ≡ with_calls codes.now ranks.now rank.now
        (own_wants rank.now) calls.now) }
{
    let mut wants = own_wants(rank);
    for call in calls {
        let Some(more) = with_call(codes, ranks, rank, wants, call.callee) else {
            return None;
        };
        wants = more;
    }
    Some(wants)
}

/// A unit's needs become what it wants.
pub(crate) fn settle(rank: &mut UnitRank, wants: Wants)
    ensures { rank.new ≡ settled rank.old wants }
{
    rank.frames = wants.frames;
    rank.values = wants.values;
    rank.names = wants.names;
    rank.plain = wants.plain;
    rank.copies = wants.copies;
}
