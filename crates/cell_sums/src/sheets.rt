//! Sums along one axis, by the cell and by chunks of cells.

ghost use Rattle.std.specs.Prelude.{◌≡◌, ◌<◌, ◌≤◌, ◌+◌, ◌*◌, ◌/◌, ◌^◌, ℕ, OnOk, OnErr};
ghost use Rattle.cell_sums.specs.Blocks.{HasGained, pair_gains, strip_gains, sum_at};
ghost use Rattle.cell_sums.specs.Covered.{AreFull};
ghost use Rattle.cell_sums.specs.Lines.{AreLines};
ghost use Rattle.cell_sums.specs.Sheets.{HasGrown, HasGrownAtMost, no_totals, total};

use crate::blocks::Blocks;
use crate::lines::GridLines;
use crate::runs::{Run, Strip};
use std::alloc::{AllocError, Allocator, Global};
use std::hash::RandomState;
use std::marker::Model;

/// How many cells make a chunk.
const CHUNK: usize = 16;

/// Sums by layer, minor and major number. Where a strip covers cells on both sides of a chunk, its height is kept once for the chunk.
#[derive(Drop)]
pub(crate) struct Sheet<A: Allocator = Global> {
    /// Areas, by the cell.
    cells: Blocks<A>,
    /// Heights, by the chunk.
    chunks: Blocks<A>,
}

impl<A: Allocator> Model for Sheet<A> {
    ghost use Rattle.cell_sums.specs.Sheets.{SheetSums};

    ghost Value = { SheetSums };

    ghost view = { λ s. record { cells = s.cells; chunks = s.chunks } };
}

impl<A: Allocator + Copy> Sheet<A> {
    /// No sums. It takes no memory.
    pub(crate) fn new(alloc: A, hash_builder: RandomState) -> Sheet<A>
        ensures { result ≡ no_totals }
    {
        Sheet {
            cells: Blocks::new(alloc, hash_builder),
            chunks: Blocks::new(alloc, hash_builder),
        }
    }

    /// The sum of a cell: 0 where nothing was added.
    pub(crate) fn sum<L: Allocator>(
        &self,
        lines: &GridLines<L>,
        layer: usize,
        minor: usize,
        major: usize,
    ) -> u128
        requires { total lines.now self.now layer minor major < 2 ^ 128 }
        ensures { result ≡ total lines.now self.now layer minor major }
    {
        let areas = self.cells.sum(layer, minor, major);
        let heights = self.chunks.sum(layer, minor / CHUNK, major);
        areas + lines.width(minor) as u128 * heights
    }

    /// Adds the areas that a strip has in common with cells, of which those of the chunks from `begin` up to, and without, `end` are
    /// neither the first nor the last.
    #[inline(never)]
    fn add_in_parts<L: Allocator>(
        &mut self,
        cells: &Run,
        lines: &GridLines<L>,
        strip: &Strip,
        begin: usize,
        end: usize,
    ) -> Result<(), AllocError>
        requires lines { AreLines lines.now }
        requires full { AreFull lines.now strip.now.low strip.now.high cells.now.first cells.now.end }
        requires some { begin < end }
        requires behind { cells.now.first < begin * 16 }
        requires before { end * 16 < cells.now.end }
        requires fits { (i : ℕ) → cells.now.first ≤ i → i < cells.now.end → total lines.now self.old cells.now.layer i cells.now.major + 2 ^ 64 ≤ 2 ^ 128 }
        ensures added { OnOk result (HasGrown lines.now self.old self.new (strip_gains lines.now cells.now strip.now)) }
        ensures at_most { HasGrownAtMost lines.now self.old self.new (strip_gains lines.now cells.now strip.now) }
    {
        let chunks = Run {
            first: begin,
            end,
            ..*cells
        };
        self.chunks.add_heights(&chunks, strip.height)?;
        let before = Run {
            end: begin * CHUNK,
            ..*cells
        };
        self.cells.add(&before, lines, strip)?;
        let behind = Run {
            first: end * CHUNK,
            ..*cells
        };
        self.cells.add(&behind, lines, strip)
    }

    /// Adds areas to a cell and its neighbour in one block.
    #[inline(always)]
    pub(crate) fn add_to_two(
        &mut self,
        cells: &Run,
        area: u64,
        next_area: u64,
    ) -> Result<(), AllocError>
        requires two { cells.now.end ≡ cells.now.first + 2 }
        requires together { cells.now.end ≤ cells.now.first / 64 * 64 + 64 }
        requires fits { (i : ℕ) → cells.now.first ≤ i → i < cells.now.end → sum_at self.old.cells cells.now.layer i cells.now.major + 2 ^ 64 ≤ 2 ^ 128 }
        ensures added { OnOk result (HasGained self.old.cells self.new.cells (pair_gains cells.now area next_area)) }
        ensures refused { OnErr result ((l i j : ℕ) → sum_at self.new.cells l i j ≡ sum_at self.old.cells l i j) }
        ensures same { self.new.chunks ≡ self.old.chunks }
    {
        self.cells.add_to_two(cells, area, next_area)
    }

    /// Adds the areas that a strip has in common with cells. It reaches over those between the first and the last as a whole. A refused
    /// growth may leave some of them added.
    #[inline(always)]
    pub(crate) fn add<L: Allocator>(
        &mut self,
        cells: &Run,
        lines: &GridLines<L>,
        strip: &Strip,
    ) -> Result<(), AllocError>
        requires lines { AreLines lines.now }
        requires full { AreFull lines.now strip.now.low strip.now.high cells.now.first cells.now.end }
        requires fits { (i : ℕ) → cells.now.first ≤ i → i < cells.now.end → total lines.now self.old cells.now.layer i cells.now.major + 2 ^ 64 ≤ 2 ^ 128 }
        ensures added { OnOk result (HasGrown lines.now self.old self.new (strip_gains lines.now cells.now strip.now)) }
        ensures at_most { HasGrownAtMost lines.now self.old self.new (strip_gains lines.now cells.now strip.now) }
    {
        let begin = cells.first / CHUNK + 1;
        let end = cells.end.saturating_sub(1) / CHUNK;
        if begin < end {
            return self.add_in_parts(cells, lines, strip, begin, end);
        }
        self.cells.add(cells, lines, strip)
    }
}
