//! Sums in blocks of 64, each for neighbours along one axis of a layer.

ghost use Rattle.std.specs.Prelude.{◌≡◌, true, ◌<◌, ◌≤◌, ◌+◌, ◌*◌, ◌/◌, ◌-◌, ◌^◌, ◌==◌, ℕ, Some, IfOk, OnOk, OnErr, length, slice_index, if◌then◌else◌};
ghost use Rattle.cell_sums.specs.Blocks.{AreSame, HasGained, HasGainedAtMost, HasRoom, block_at, no_sums, one_of_two, pair_gains, run_gains, strip_gains, sum_at};
ghost use Rattle.cell_sums.specs.Covered.{AreFull};
ghost use Rattle.cell_sums.specs.Lines.{AreLines, common_length, is_from, width};

use crate::block_places::BlockPlaces;
use crate::lines::GridLines;
use crate::runs::{Key, Run, Strip};
use crate::stretch::Stretch;
use std::alloc::{AllocError, Allocator, Global};
use std::hash::RandomState;
use std::marker::Model;

/// How many cells of a run share a block.
pub(crate) const BLOCK: usize = 64;

/// Sums by layer, minor and major number. They take memory only for blocks to which something was added. A sum stands in two parts.
#[derive(Drop)]
pub(crate) struct Blocks<A: Allocator = Global> {
    places: BlockPlaces<A>,
    /// What was added since the last spill, one block after the other, in the order of the keys. Others may follow where a key's growth
    /// was refused.
    sums: Vec<u64, A>,
    /// What was added before that, at the same places; nothing where there is no such place. It is empty until the first spill.
    spilled: Vec<u128, A>,
    /// None of `sums` is more than this.
    most: u64,
}

impl<A: Allocator> Model for Blocks<A> {
    ghost use Rattle.cell_sums.specs.Blocks.{AreInBlocks, BlockSums};

    ghost Value = { BlockSums };

    ghost view = { λ b. record { keys = b.places; sums = b.sums.items; spilled = b.spilled.items; most = b.most } };

    ghost invariant = { λ b. AreInBlocks b.places b.sums.items b.spilled.items b.most };
}

/// Whether there are some cells, all of one block.
#[inline(always)]
fn share_block(cells: &Run) -> bool
    ensures some { result ≡ true → cells.now.first < cells.now.end }
    ensures together { result ≡ true → cells.now.end ≤ cells.now.first / 64 * 64 + 64 }
{
    if cells.first >= cells.end {
        return false;
    }
    (cells.end - 1) / BLOCK == cells.first / BLOCK
}

/// Adds the area that a strip has in common with the cell of a number to the sum at a place.
#[inline(always)]
fn add_area<A: Allocator>(
    sums: &mut [u64],
    place: usize,
    lines: &GridLines<A>,
    strip: &Strip,
    number: usize,
)
    requires within { place < length sums.old }
    requires fits { slice_index sums.old place + common_length lines.now strip.now.low strip.now.high number * strip.now.height < 2 ^ 64 }
    ensures { (n : ℕ) → slice_index sums.new n ≡ slice_index sums.old n + (if place == n then common_length lines.now strip.now.low strip.now.high number * strip.now.height else 0) }
{
    let stretch = Stretch {
        low: strip.low,
        high: strip.high,
    };
    sums[place] += lines.common_length(number, stretch) * strip.height;
}

/// Adds the areas of a strip that reaches over consecutive cells to as many sums, of which the first stands at a place.
#[inline(never)]
fn add_full_areas<A: Allocator>(
    sums: &mut [u64],
    place: usize,
    lines: &GridLines<A>,
    height: u64,
    first: usize,
    count: usize,
)
    requires within { place + count ≤ length sums.old }
    requires numbers_fit { first + count < 2 ^ 64 }
    requires fits { (k : ℕ) → k < count → slice_index sums.old (place + k) + width lines.now (first + k) * height < 2 ^ 64 }
    ensures { (n : ℕ) → slice_index sums.new n ≡ slice_index sums.old n + (if is_from place (place + count) n then width lines.now (first + (n - place)) * height else 0) }
{
    for offset in 0..count {
        sums[place + offset] += lines.width(first + offset) * height;
    }
}

/// Adds a height to consecutive sums, of which the first stands at a place.
fn add_height(sums: &mut [u64], place: usize, height: u64, count: usize)
    requires within { place + count ≤ length sums.old }
    requires fits { (k : ℕ) → k < count → slice_index sums.old (place + k) + height < 2 ^ 64 }
    ensures { (n : ℕ) → slice_index sums.new n ≡ slice_index sums.old n + (if is_from place (place + count) n then height else 0) }
{
    for offset in 0..count {
        sums[place + offset] += height;
    }
}

/// Adds areas to the sum at a place and to the next.
#[inline(always)]
fn add_two(sums: &mut [u64], place: usize, area: u64, next_area: u64)
    requires within { place + 2 ≤ length sums.old }
    requires fits { slice_index sums.old place + area < 2 ^ 64 }
    requires next_fits { slice_index sums.old (place + 1) + next_area < 2 ^ 64 }
    ensures { (n : ℕ) → slice_index sums.new n ≡ slice_index sums.old n + (if is_from place (place + 2) n then one_of_two area next_area (n - place) else 0) }
{
    sums[place] += area;
    sums[place + 1] += next_area;
}

/// Adds the areas that a strip has in common with consecutive cells to as many sums, of which the first stands at a place. It reaches
/// over those between the first and the last as a whole.
#[inline(always)]
fn add_areas<A: Allocator>(
    sums: &mut [u64],
    place: usize,
    lines: &GridLines<A>,
    strip: &Strip,
    first: usize,
    count: usize,
)
    requires some { 0 < count }
    requires within { place + count ≤ length sums.old }
    requires numbers_fit { first + count < 2 ^ 64 }
    requires full { AreFull lines.now strip.now.low strip.now.high first (first + count) }
    requires fits { (k : ℕ) → k < count → slice_index sums.old (place + k) + common_length lines.now strip.now.low strip.now.high (first + k) * strip.now.height < 2 ^ 64 }
    ensures { (n : ℕ) → slice_index sums.new n ≡ slice_index sums.old n + (if is_from place (place + count) n then common_length lines.now strip.now.low strip.now.high (first + (n - place)) * strip.now.height else 0) }
{
    add_area(sums, place, lines, strip, first);
    let others = count - 1;
    if others > 0 {
        if others > 1 {
            add_full_areas(sums, place + 1, lines, strip.height, first + 1, others - 1);
        }
        add_area(sums, place + others, lines, strip, first + others);
    }
}

/// Adds sums to what was spilled at the same places, and leaves 0 for each.
fn move_sums(sums: &mut [u64], spilled: &mut [u128])
    requires alike { length sums.old ≡ length spilled.old }
    requires fits { (n : ℕ) → slice_index sums.old n + slice_index spilled.old n < 2 ^ 128 }
    ensures none { (n : ℕ) → slice_index sums.new n ≡ 0 }
    ensures moved { (n : ℕ) → slice_index spilled.new n ≡ slice_index sums.old n + slice_index spilled.old n }
{
    for place in 0..sums.len() {
        spilled[place] += sums[place] as u128;
        sums[place] = 0;
    }
}

impl<A: Allocator + Copy> Blocks<A> {
    /// No sums. It takes no memory.
    pub(crate) fn new(alloc: A, hash_builder: RandomState) -> Blocks<A>
        ensures { result ≡ no_sums }
    {
        Blocks {
            places: BlockPlaces::new(alloc, hash_builder),
            sums: Vec::new(alloc),
            spilled: Vec::new(alloc),
            most: 0,
        }
    }

    /// The sum of a cell: 0 where nothing was added.
    pub(crate) fn sum(&self, layer: usize, minor: usize, major: usize) -> u128
        ensures { result ≡ sum_at self.now layer minor major }
    {
        let Some(block) = self.places.get((layer, major, minor / BLOCK)) else {
            return 0;
        };
        let place = block * BLOCK + minor % BLOCK;
        let spilled = self.spilled.get(place).copied().unwrap_or(0);
        self.sums[place] as u128 + spilled
    }

    /// The place of a block among all, by the hash of its key, made where there is none. No sum changes. This is rare, so what it needs
    /// room for stays out of `block`.
    #[inline(never)]
    fn hashed_block(&mut self, key: Key) -> Result<usize, AllocError>
        ensures place { IfOk result (λ n. block_at self.new.keys key ≡ Some n) }
        ensures stands { IfOk result (λ n. n * 64 + 64 ≤ length self.new.sums) }
        ensures same { (l i j : ℕ) → sum_at self.new l i j ≡ sum_at self.old l i j }
    {
        if let Some(block) = self.places.get(key) {
            return Ok(block);
        }
        let block = self.places.len();
        self.sums.truncate(block * BLOCK);
        self.spilled.truncate(block * BLOCK);
        self.sums.extend_from_slice(&[0; BLOCK])?;
        self.places.push(key)?;
        Ok(block)
    }

    /// The place of a block among all, made where there is none. No sum changes.
    #[inline(always)]
    fn block(&mut self, key: Key) -> Result<usize, AllocError>
        ensures place { IfOk result (λ n. block_at self.new.keys key ≡ Some n) }
        ensures stands { IfOk result (λ n. n * 64 + 64 ≤ length self.new.sums) }
        ensures same { (l i j : ℕ) → sum_at self.new l i j ≡ sum_at self.old l i j }
    {
        if let Some(block) = self.places.noted(key) {
            return Ok(block);
        }
        let block = self.hashed_block(key)?;
        self.places.note(key, block)?;
        Ok(block)
    }

    /// Moves what stands in `sums` to `spilled`, so that `sums` begin at 0 again. This is rare. No sum changes.
    #[inline(never)]
    fn spill(&mut self) -> Result<(), AllocError>
        ensures none { OnOk result ((n : ℕ) → slice_index self.new.sums n ≡ 0) }
        ensures same { AreSame self.old self.new }
    {
        self.spilled.resize(self.sums.len(), 0)?;
        move_sums(self.sums.as_mut_slice(), self.spilled.as_mut_slice());
        Ok(())
    }

    /// Makes room for an area more in each of `sums`: they are spilled where it might not fit. No sum changes.
    #[inline(always)]
    fn make_room(&mut self, area: u64) -> Result<(), AllocError>
        ensures room { OnOk result (HasRoom self.new area) }
        ensures same { AreSame self.old self.new }
    {
        if let Some(most) = self.most.checked_add(area) {
            self.most = most;
            return Ok(());
        }
        self.spill()?;
        self.most = area;
        Ok(())
    }

    /// The place of a block among all, made where there is none, with room for an area more in each of `sums`. No sum changes.
    #[inline(always)]
    fn block_with_room(&mut self, key: Key, area: u64) -> Result<usize, AllocError>
        ensures place { IfOk result (λ n. block_at self.new.keys key ≡ Some n) }
        ensures stands { IfOk result (λ n. n * 64 + 64 ≤ length self.new.sums) }
        ensures room { OnOk result (HasRoom self.new area) }
        ensures same { (l i j : ℕ) → sum_at self.new l i j ≡ sum_at self.old l i j }
    {
        let block = self.block(key)?;
        self.make_room(area)?;
        Ok(block)
    }

    /// Adds the areas that a strip has in common with cells of one block. It reaches over those between the first and the last as a whole.
    #[inline(always)]
    fn add_to_block<L: Allocator>(
        &mut self,
        cells: &Run,
        lines: &GridLines<L>,
        strip: &Strip,
    ) -> Result<(), AllocError>
        requires lines { AreLines lines.now }
        requires some { cells.now.first < cells.now.end }
        requires together { cells.now.end ≤ cells.now.first / 64 * 64 + 64 }
        requires full { AreFull lines.now strip.now.low strip.now.high cells.now.first cells.now.end }
        requires fits { (i : ℕ) → cells.now.first ≤ i → i < cells.now.end → sum_at self.old cells.now.layer i cells.now.major + 2 ^ 64 ≤ 2 ^ 128 }
        ensures added { OnOk result (HasGained self.old self.new (strip_gains lines.now cells.now strip.now)) }
        ensures refused { OnErr result ((l i j : ℕ) → sum_at self.new l i j ≡ sum_at self.old l i j) }
    {
        let key = (cells.layer, cells.major, cells.first / BLOCK);
        let block = self.block_with_room(key, strip.most_of_cell())?;
        let sums = self.sums.as_mut_slice();
        let place = block * BLOCK + cells.first % BLOCK;
        let count = cells.end - cells.first;
        add_areas(sums, place, lines, strip, cells.first, count);
        Ok(())
    }

    /// Adds the areas that a strip has in common with cells, block by block. It reaches over those between the first and the last as a
    /// whole. A refused growth may leave some of them added.
    #[inline(never)]
    fn add_by_blocks<L: Allocator>(
        &mut self,
        cells: &Run,
        lines: &GridLines<L>,
        strip: &Strip,
    ) -> Result<(), AllocError>
        requires lines { AreLines lines.now }
        requires full { AreFull lines.now strip.now.low strip.now.high cells.now.first cells.now.end }
        requires fits { (i : ℕ) → cells.now.first ≤ i → i < cells.now.end → sum_at self.old cells.now.layer i cells.now.major + 2 ^ 64 ≤ 2 ^ 128 }
        ensures added { OnOk result (HasGained self.old self.new (strip_gains lines.now cells.now strip.now)) }
        ensures at_most { HasGainedAtMost self.old self.new (strip_gains lines.now cells.now strip.now) }
    {
        let mut first = cells.first;
        while first < cells.end {
            let end = first + (BLOCK - first % BLOCK).min(cells.end - first);
            let part = Run {
                first,
                end,
                ..*cells
            };
            self.add_to_block(&part, lines, strip)?;
            first = end;
        }
        Ok(())
    }

    /// Adds the areas that a strip has in common with cells. It reaches over those between the first and the last as a whole. A refused
    /// growth may leave some of them added.
    #[inline(always)]
    pub(crate) fn add<L: Allocator>(
        &mut self,
        cells: &Run,
        lines: &GridLines<L>,
        strip: &Strip,
    ) -> Result<(), AllocError>
        requires lines { AreLines lines.now }
        requires full { AreFull lines.now strip.now.low strip.now.high cells.now.first cells.now.end }
        requires fits { (i : ℕ) → cells.now.first ≤ i → i < cells.now.end → sum_at self.old cells.now.layer i cells.now.major + 2 ^ 64 ≤ 2 ^ 128 }
        ensures added { OnOk result (HasGained self.old self.new (strip_gains lines.now cells.now strip.now)) }
        ensures at_most { HasGainedAtMost self.old self.new (strip_gains lines.now cells.now strip.now) }
    {
        if share_block(cells) {
            self.add_to_block(cells, lines, strip)
        } else {
            self.add_by_blocks(cells, lines, strip)
        }
    }

    /// Adds areas to a cell and its neighbour in one block.
    #[inline(always)]
    pub(crate) fn add_to_two(
        &mut self,
        cells: &Run,
        area: u64,
        next_area: u64,
    ) -> Result<(), AllocError>
        requires two { cells.now.end ≡ cells.now.first + 2 }
        requires together { cells.now.end ≤ cells.now.first / 64 * 64 + 64 }
        requires fits { (i : ℕ) → cells.now.first ≤ i → i < cells.now.end → sum_at self.old cells.now.layer i cells.now.major + 2 ^ 64 ≤ 2 ^ 128 }
        ensures added { OnOk result (HasGained self.old self.new (pair_gains cells.now area next_area)) }
        ensures refused { OnErr result ((l i j : ℕ) → sum_at self.new l i j ≡ sum_at self.old l i j) }
    {
        let key = (cells.layer, cells.major, cells.first / BLOCK);
        let block = self.block_with_room(key, area.max(next_area))?;
        let sums = self.sums.as_mut_slice();
        let place = block * BLOCK + cells.first % BLOCK;
        add_two(sums, place, area, next_area);
        Ok(())
    }

    /// Adds a height to cells of one block.
    fn add_height_to_block(&mut self, cells: &Run, height: u64) -> Result<(), AllocError>
        requires some { cells.now.first < cells.now.end }
        requires together { cells.now.end ≤ cells.now.first / 64 * 64 + 64 }
        requires fits { (i : ℕ) → cells.now.first ≤ i → i < cells.now.end → sum_at self.old cells.now.layer i cells.now.major + 2 ^ 64 ≤ 2 ^ 128 }
        ensures added { OnOk result (HasGained self.old self.new (run_gains cells.now (λ i. height))) }
        ensures refused { OnErr result ((l i j : ℕ) → sum_at self.new l i j ≡ sum_at self.old l i j) }
    {
        let key = (cells.layer, cells.major, cells.first / BLOCK);
        let block = self.block_with_room(key, height)?;
        let sums = self.sums.as_mut_slice();
        let place = block * BLOCK + cells.first % BLOCK;
        add_height(sums, place, height, cells.end - cells.first);
        Ok(())
    }

    /// Adds a height to cells. A refused growth may leave it added to some of them.
    pub(crate) fn add_heights(&mut self, cells: &Run, height: u64) -> Result<(), AllocError>
        requires fits { (i : ℕ) → cells.now.first ≤ i → i < cells.now.end → sum_at self.old cells.now.layer i cells.now.major + 2 ^ 64 ≤ 2 ^ 128 }
        ensures added { OnOk result (HasGained self.old self.new (run_gains cells.now (λ i. height))) }
        ensures at_most { HasGainedAtMost self.old self.new (run_gains cells.now (λ i. height)) }
    {
        let mut first = cells.first;
        while first < cells.end {
            let left = cells.end - first;
            let end = first + left.min(BLOCK - first % BLOCK);
            let part = Run {
                first,
                end,
                ..*cells
            };
            self.add_height_to_block(&part, height)?;
            first = end;
        }
        Ok(())
    }
}
