// What is known of a unit's ranges.
ghost use Rattle.std.specs.Prelude.{◌≡◌, ◌<◌, ◌≤◌, ◌||◌, nat_lt, length, get_or, IfOk};
ghost use Rattle.range_cover.specs.Covers.{AreEnds};
ghost use Rattle.std.specs.List.{list_any};
ghost use Rattle.fort_model.specs.Ranges.{enters, leaves, dos, blocks};
ghost use Rattle.do_ranges.specs.Ends.{some_range};
ghost use Rattle.do_ranges.specs.Known.{AreRanges, IsKnownOf};

use crate::ends::{block_ends, do_ends};
use edge_io::NoMemory;
use fort_syntax::Unit;
use range_cover::{Covers, cover_all};
use std::alloc::Global;
use unit_points::{Labels, Turns, turns_of};

/// Ranges by their ends, and what covers each point.
#[derive(Drop)]
pub(crate) struct Ranges {
    pub(crate) ends: Vec<usize>,
    pub(crate) covers: Covers,
}

impl Ranges {
    fn new(alloc: Global, ends: Vec<usize>) -> Result<Ranges, NoMemory>
        requires { AreEnds ends.items }
        ensures ends { IfOk result (λ r. r.ends.items ≡ ends.items) }
        ensures ranges { IfOk result (λ r. AreRanges r) }
    {
        let covers = cover_all(alloc, ends.as_slice())?;
        Ok(Ranges { ends, covers })
    }

    /// Whether a jump to a point enters a range, by what covers the point.
    fn enters_point(&self, from: usize, to: usize) -> bool
        requires ranges { AreRanges self.now }
        requires to { to < length self.now.ends.items }
        ensures { result ≡ (nat_lt from (get_or self.now.covers.firsts.items to 0)
            || nat_lt (get_or self.now.covers.lasts.items to 0) from) }
    {
        from < self.covers.firsts[to] || self.covers.lasts[to] < from
    }

    /// Whether a jump from one point to another enters one of the ranges.
    fn enters(&self, from: usize, to: usize) -> bool
        requires ranges { AreRanges self.now }
        requires from { from < length self.now.ends.items }
        ensures { result ≡ some_range (enters from to) 0 self.now.ends.items }
    {
        if to >= self.ends.len() {
            return false;
        }
        self.enters_point(from, to)
    }

    /// Whether a range has a point and ends before another, by what covers the first.
    fn leaves_point(&self, from: usize, to: usize) -> bool
        requires ranges { AreRanges self.now }
        requires from { from < length self.now.ends.items }
        ensures { result ≡ nat_lt (get_or self.now.covers.lasts.items from 0) to }
    {
        self.covers.lasts[from] < to
    }

    /// Whether one of the ranges has a point, and ends before another.
    fn leaves(&self, from: usize, to: usize) -> bool
        requires ranges { AreRanges self.now }
        requires from { from < length self.now.ends.items }
        requires to { to ≤ length self.now.ends.items }
        ensures { result ≡ some_range (leaves from to) 0 self.now.ends.items }
    {
        self.leaves_point(from, to)
    }
}

/// What is known of a unit: its labels, where its block IFs lead, its DOs' ranges and its blocks.
#[derive(Drop)]
pub(crate) struct Known {
    pub(crate) labels: Labels,
    pub(crate) turns: Turns,
    pub(crate) dos: Ranges,
    pub(crate) blocks: Ranges,
}

impl Known {
    pub(crate) fn new(alloc: Global, unit: &Unit) -> Result<Known, NoMemory>
        ensures { IfOk result (IsKnownOf unit.now) }
    {
        let labels = Labels::new(alloc, unit.lines.as_slice())?;
        let turns = turns_of(alloc, unit)?;
        let do_list = do_ends(alloc, unit, &labels)?;
        let dos = Ranges::new(alloc, do_list)?;
        let block_list = block_ends(alloc, unit, &turns)?;
        let blocks = Ranges::new(alloc, block_list)?;
        Ok(Known {
            labels,
            turns,
            dos,
            blocks,
        })
    }

    /// Whether a jump from a point to another enters the range of a DO.
    pub(crate) fn enters_do(&self, unit: &Unit, from: usize, to: usize) -> bool
        requires known { IsKnownOf unit.now self.now }
        requires from { from < length unit.now.lines }
        ensures { result ≡ list_any (λ d. enters from to d.range) (dos unit.now) }
    {
        self.dos.enters(from, to)
    }

    /// Whether a jump from a point to another enters a block.
    pub(crate) fn enters_block(&self, unit: &Unit, from: usize, to: usize) -> bool
        requires known { IsKnownOf unit.now self.now }
        requires from { from < length unit.now.lines }
        ensures { result ≡ list_any (enters from to) (blocks unit.now) }
    {
        self.blocks.enters(from, to)
    }

    /// Whether the range of a DO has a point, and ends before another.
    pub(crate) fn leaves_do(&self, unit: &Unit, from: usize, to: usize) -> bool
        requires known { IsKnownOf unit.now self.now }
        requires from { from < length unit.now.lines }
        requires to { to ≤ length unit.now.lines }
        ensures { result ≡ list_any (λ d. leaves from to d.range) (dos unit.now) }
    {
        self.dos.leaves(from, to)
    }

    /// Whether a block has a point, and ends before another.
    pub(crate) fn leaves_block(&self, unit: &Unit, from: usize, to: usize) -> bool
        requires known { IsKnownOf unit.now self.now }
        requires from { from < length unit.now.lines }
        requires to { to ≤ length unit.now.lines }
        ensures { result ≡ list_any (leaves from to) (blocks unit.now) }
    {
        self.blocks.leaves(from, to)
    }
}
