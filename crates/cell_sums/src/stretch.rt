//! Stretches of an axis.

ghost use Rattle.std.specs.Prelude.{◌≡◌, ◌<◌, ◌+◌, ◌^◌};
ghost use Rattle.design_model.specs.Ranges.{IsWithin};
ghost use Rattle.cell_sums.specs.Lines.{farthest, length_shared};

/// A stretch of an axis, from one place to another.
#[derive(Clone, Copy)]
pub(crate) struct Stretch {
    pub(crate) low: i64,
    pub(crate) high: i64,
}

/// A stretch, and the columns or rows that it covers, by their numbers from 0: those from `first` up to, and without, `end`.
#[derive(Clone, Copy)]
pub(crate) struct Covered {
    pub(crate) stretch: Stretch,
    pub(crate) first: usize,
    pub(crate) end: usize,
}

/// A stretch, two neighbours among columns or rows, of which the first has a number from 0, and the lengths that they have in common with
/// the stretch.
#[derive(Clone, Copy)]
pub(crate) struct Neighbours {
    pub(crate) stretch: Stretch,
    pub(crate) first: usize,
    pub(crate) length: u64,
    pub(crate) next_length: u64,
    ghost small: { length < 2 ^ 32 },
    ghost next_small: { next_length < 2 ^ 32 },
    ghost numbered: { first + 2 < 2 ^ 64 },
}

impl Neighbours {
    ghost use Rattle.std.specs.Prelude.{◌≡◌, List, ℤ};
    ghost use Rattle.cell_sums.specs.Covered.{HoldAll, IsCovered};

    /// Those of them that the stretch covers, where it covers no others: the first may be covered alone.
    #[inline(always)]
    pub(crate) fn covered(&self) -> Covered
        ensures stretch { result.stretch ≡ self.now.stretch }
        ensures covered { (ls : List ℤ) → HoldAll ls self.now → IsCovered ls self.now.stretch.low self.now.stretch.high result.first result.end }
    {
        let count = if self.next_length > 0 { 2 } else { 1 };
        Covered {
            stretch: self.stretch,
            first: self.first,
            end: self.first + count,
        }
    }
}

/// The length that a stretch has in common with what lies between two lines.
pub(crate) fn length_shared(low: i64, high: i64, stretch: Stretch) -> u64
    requires low_near { IsWithin farthest low }
    requires high_near { IsWithin farthest high }
    ensures value { result ≡ length_shared stretch.low stretch.high (low, high) }
    ensures small { result < 2 ^ 32 }
{
    let low = low.max(stretch.low);
    let high = high.min(stretch.high);
    if low < high { high.abs_diff(low) } else { 0 }
}
