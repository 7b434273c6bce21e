//! Consecutive cells along an axis, and what of a rectangle lies there.

ghost use Rattle.std.specs.Prelude.{◌<◌, ◌^◌};

/// The layer, the major number of a block's cells, and the block's number among those of one major number.
pub(crate) type Key = (usize, usize, usize);

/// Consecutive cells of a layer that have one major number: those of the minor numbers from `first` up to, and without, `end`.
/// Where cells run along a row, their major number is the row's and their minor numbers are columns'; along a column it is the other
/// way around.
#[derive(Clone, Copy)]
pub(crate) struct Run {
    pub(crate) layer: usize,
    pub(crate) major: usize,
    pub(crate) first: usize,
    pub(crate) end: usize,
}

/// What of a rectangle lies in a row, or in a column: how far it reaches along it, and how high it is there, or how wide.
#[derive(Clone, Copy)]
pub(crate) struct Strip {
    pub(crate) low: i64,
    pub(crate) high: i64,
    pub(crate) height: u64,
    ghost small: { height < 2 ^ 32 },
}

impl Strip {
    ghost use Rattle.std.specs.Prelude.{◌≤◌, ℕ, List, ℤ};
    ghost use Rattle.cell_sums.specs.Blocks.{strip_area};
    ghost use Rattle.cell_sums.specs.Lines.{AreLines};

    /// An area that is no less than what the strip has in common with any cell.
    #[inline(always)]
    pub(crate) fn most_of_cell(&self) -> u64
        ensures { (ls : List ℤ) → AreLines ls → (i : ℕ) → strip_area ls self.now i ≤ result }
    {
        self.high.abs_diff(self.low).min(u32::MAX as u64) * self.height
    }
}
