//! The lines of one axis of a grid.

ghost use Rattle.std.specs.Prelude.{◌≡◌, ◌<◌, ◌+◌, ◌^◌, true, IfOk, IfSome};
ghost use Rattle.std.specs.List.{All};
ghost use Rattle.design_model.specs.Ranges.{IsWithin};
ghost use Rattle.measure_rules.specs.GridCells.{between, in_order};
ghost use Rattle.cell_sums.specs.Covered.{AreBefore, HoldAll, IsCovered, is_before};
ghost use Rattle.cell_sums.specs.Lines.{AreLines, common_length, farthest, width};

use crate::stretch::{Covered, Neighbours, Stretch, length_shared};
use std::alloc::{AllocError, Allocator, Global};
use std::marker::Model;

/// How many steps a guess by even spacing is mended by before it is given up.
const STEPS: usize = 8;

/// How many buckets come to a line, and for how many lines at most.
const BUCKETS: u64 = 4;

const MOST_LINES: u64 = 1 << 28;

/// The lines of one axis of a grid, in order, each once, in database units. Those of columns are found by x, those of rows by y.
#[derive(Drop)]
pub struct GridLines<A: Allocator = Global> {
    lines: Vec<i64, A>,
    /// How many lines lie before each of so many buckets, stretches of one length; none where memory for them was refused. They serve
    /// to guess alone.
    counts: Vec<u32, A>,
    /// How many buckets, or lines where there are no buckets, come to a unit of length, in parts of 2^32.
    per_unit: u64,
}

impl<A: Allocator> Model for GridLines<A> {
    ghost use Rattle.std.specs.Prelude.{List, ℤ};
    ghost use Rattle.cell_sums.specs.Lines.{AreLines};

    ghost Value = { List ℤ };

    ghost view = { λ g. g.lines.items };

    ghost invariant = { λ g. AreLines g.lines.items };
}

/// How many of so many parts of the length of lines in order come to a unit of length, in parts of 2^32, rounded up.
fn parts_per_unit(lines: &[i64], parts: u64) -> u64 {
    let (Some(first), Some(last)) = (lines.first(), lines.last()) else {
        return 0;
    };
    let length = last.abs_diff(*first).max(1);
    ((parts << 32) / length).wrapping_add(1)
}

/// The part in which a place lies, counted from the first line.
fn part_at(first: i64, per_unit: u64, place: i64) -> usize {
    let past = place.max(first).abs_diff(first);
    (past.wrapping_mul(per_unit) >> 32) as usize
}

/// How many of lines in order lie before each bucket, up to that of the last line.
fn counts_of<A: Allocator>(
    alloc: A,
    lines: &[i64],
    per_unit: u64,
) -> Result<Vec<u32, A>, AllocError> {
    let mut counts = Vec::new(alloc);
    let Some(first) = lines.first() else {
        return Ok(counts);
    };
    for (number, line) in lines.iter().enumerate() {
        let bucket = part_at(*first, per_unit, *line);
        if counts.len() <= bucket {
            let before = number.min(u32::MAX as usize) as u32;
            counts.resize(bucket.saturating_add(1), before)?;
        }
    }
    Ok(counts)
}

/// The buckets of lines in order and how many of them come to a unit of length, or no buckets and how many lines do.
fn guesses_of<A: Allocator + Copy>(alloc: A, lines: &[i64]) -> (Vec<u32, A>, u64) {
    let most = (lines.len() as u64).min(MOST_LINES);
    let per_unit = parts_per_unit(lines, most * BUCKETS);
    match counts_of(alloc, lines, per_unit) {
        Ok(counts) => (counts, per_unit),
        Err(_) => (
            Vec::new(alloc),
            parts_per_unit(lines, most.saturating_sub(1)),
        ),
    }
}

impl<A: Allocator + Copy> GridLines<A> {
    /// Lines in order, each once. It takes memory for a table by which they are found, some 16 to 32 bytes a line; where that is
    /// refused, they are found more slowly.
    pub fn of(lines: Vec<i64, A>) -> GridLines<A>
        requires { All (IsWithin farthest) lines.items }
        ensures { result ≡ in_order lines.items }
    {
        let mut lines = lines;
        lines.sort_unstable();
        lines.dedup();
        let alloc = *lines.allocator();
        let (counts, per_unit) = guesses_of(alloc, lines.as_slice());
        GridLines {
            lines,
            counts,
            per_unit,
        }
    }
}

impl<A: Allocator + Copy> GridLines<A> {
    /// The same lines.
    pub(crate) fn copied(&self, alloc: A) -> Result<GridLines<A>, AllocError>
        ensures { IfOk result (λ lines. lines ≡ self.now) }
    {
        Ok(GridLines {
            lines: Vec::from_slice(alloc, &self.lines)?,
            counts: Vec::from_slice(alloc, &self.counts)?,
            per_unit: self.per_unit,
        })
    }
}

impl<A: Allocator> GridLines<A> {
    /// The two neighbours among the lines between which the cells of a number lie, counted from 0.
    pub fn between(&self, place: usize) -> Option<(i64, i64)>
        ensures lines { result ≡ between self.now place }
        ensures near { IfSome result (λ c. IsWithin farthest c.0 × IsWithin farthest c.1) }
    {
        if place < self.lines.len().saturating_sub(1) {
            Some((self.lines[place], self.lines[place + 1]))
        } else {
            None
        }
    }

    /// The length that a column, or a row, has in common with a stretch: 0 where there is none of that number.
    pub(crate) fn common_length(&self, place: usize, stretch: Stretch) -> u64
        ensures value { result ≡ common_length self.now stretch.low stretch.high place }
        ensures small { result < 2 ^ 32 }
    {
        match self.between(place) {
            Some((low, high)) => length_shared(low, high, stretch),
            None => 0,
        }
    }

    /// The length of a column, or of a row: 0 where there is none of that number.
    pub(crate) fn width(&self, place: usize) -> u64
        ensures value { result ≡ width self.now place }
        ensures small { result < 2 ^ 32 }
    {
        match self.between(place) {
            Some((low, high)) => high.abs_diff(low),
            None => 0,
        }
    }

    /// About how many lines lie before a place: those before its bucket, where it has one.
    #[inline(always)]
    fn guess(&self, place: i64) -> usize {
        let Some(first) = self.lines.first() else {
            return 0;
        };
        let part = part_at(*first, self.per_unit, place);
        match self.counts.get(part) {
            Some(count) => *count as usize,
            None => self.mended(part.min(self.lines.len()), place),
        }
    }

    /// A guess by even spacing that was mended by a few steps along the lines, as where grids of two spacings lie over each other.
    fn mended(&self, guess: usize, place: i64) -> usize {
        let mut count = guess;
        for _ in 0..STEPS {
            if self.is_before(count, place) {
                count = count.saturating_add(1);
            } else if count > 0 && !self.is_before(count - 1, place) {
                count -= 1;
            } else {
                return count;
            }
        }
        count
    }

    /// A number of lines, and one more where the line behind them lies before a place.
    fn stepped(&self, count: usize, place: i64) -> usize {
        count.wrapping_add(self.is_before(count, place) as usize)
    }

    /// Whether there is a line of a number, and it lies before a place.
    fn is_before(&self, number: usize, place: i64) -> bool
        ensures { result ≡ is_before self.now place number }
    {
        number < self.lines.len() && self.lines[number] < place
    }

    /// Whether so many lines lie before a place.
    fn are_before(&self, count: usize, place: i64) -> bool
        ensures { result ≡ true → AreBefore self.now place count }
    {
        let _ = &self.lines;
        if count == 0 {
            return !self.is_before(0, place);
        }
        self.is_before(count - 1, place) && !self.is_before(count, place)
    }

    /// How many lines lie before a place. It is looked for from a number on, of which it is at most one more for most stretches.
    #[inline(always)]
    fn before(&self, start: usize, place: i64) -> usize
        ensures { AreBefore self.now place result }
    {
        let near = self.stepped(start, place);
        if self.are_before(near, place) {
            return near;
        }
        self.found_before(place)
    }

    /// How many lines lie before a place. It is looked for from a guess. This is rarer, and stays out of line.
    #[inline(never)]
    fn found_before(&self, place: i64) -> usize
        ensures { AreBefore self.now place result }
    {
        let count = self.stepped(self.stepped(self.guess(place), place), place);
        if self.are_before(count, place) {
            return count;
        }
        self.lines.partition_point(|line| *line < place)
    }

    /// About the number of the column, or of the row, in which a place lies.
    #[inline(always)]
    fn number_near(&self, place: i64) -> usize {
        let guess = self.guess(place);
        let is_behind = guess < self.lines.len() && self.lines[guess] <= place;
        guess.wrapping_sub(!is_behind as usize)
    }

    /// Whether a stretch lies in the column, or the row, of a number and in the next.
    #[inline(always)]
    fn has_in_two(&self, first: usize, stretch: Stretch) -> bool
        ensures covered { result ≡ true → IsCovered self.now stretch.low stretch.high first (first + 2) }
        ensures numbered { result ≡ true → first + 2 < 2 ^ 64 }
    {
        if first >= self.lines.len().saturating_sub(2) {
            return false;
        }
        self.lines[first] <= stretch.low && stretch.high <= self.lines[first + 2]
    }

    /// Two neighbours among columns, or rows, that are all that a stretch covers. They are found for most short stretches; others may
    /// have some too.
    #[inline(always)]
    pub(crate) fn neighbours(&self, stretch: Stretch) -> Option<Neighbours>
        ensures stretch { IfSome result (λ n. n.stretch ≡ stretch) }
        ensures all { IfSome result (HoldAll self.now) }
        ensures lines { AreLines self.now }
    {
        let _ = &self.lines;
        let first = self.number_near(stretch.low);
        if !self.has_in_two(first, stretch) {
            return None;
        }
        Some(Neighbours {
            stretch,
            first,
            length: self.common_length(first, stretch),
            next_length: self.common_length(first + 1, stretch),
        })
    }

    /// The columns, or rows, that a stretch covers: no other one has length in common with it.
    #[inline(always)]
    pub(crate) fn covered(&self, stretch: Stretch) -> Covered
        ensures stretch { result.stretch ≡ stretch }
        ensures covered { IsCovered self.now stretch.low stretch.high result.first result.end }
        ensures lines { AreLines self.now }
    {
        let behind = self.before(self.guess(stretch.low), stretch.low.saturating_add(1));
        let before = self.before(behind, stretch.high);
        let first = behind.saturating_sub(1);
        let end = before.min(self.lines.len().saturating_sub(1));
        Covered {
            stretch,
            first,
            end: end.max(first),
        }
    }
}
