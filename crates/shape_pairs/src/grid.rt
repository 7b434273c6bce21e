//! A grid of square bins over rectangles.

ghost use Rattle.std.specs.Prelude.{◌≡◌, ◌*◌, ◌<◌, ◌^◌};
ghost use Rattle.design_model.specs.Views.{rectangle_of};
ghost use Rattle.shape_pairs.specs.Steps.{step_at};

use crate::pairs::Numbered;
use design_model::geometry::Rect;

/// Square bins, numbered row by row. The bins at the border take what lies outside.
#[derive(Clone, Copy)]
pub(crate) struct Grid {
    left: i64,
    bottom: i64,
    /// The logarithm to base 2 of a bin's side.
    log_side: u32,
    columns: usize,
    rows: usize,
    ghost narrow: { log_side < 64 },
    ghost has_columns: { 0 < columns },
    ghost has_rows: { 0 < rows },
    ghost fits: { rows * columns < 2 ^ 63 },
}

/// What rectangles lie within, and their widths and heights together.
#[derive(Clone, Copy)]
struct Extent {
    left: i64,
    bottom: i64,
    right: i64,
    top: i64,
    sides: u64,
}

impl Extent {
    /// The extent of rectangles. Widths and heights that are too many for the number are cut off there.
    fn of(items: &[Numbered]) -> Extent {
        let mut extent = Extent {
            left: i64::MAX,
            bottom: i64::MAX,
            right: i64::MIN,
            top: i64::MIN,
            sides: 0,
        };
        for item in items {
            extent = extent.with(&item.rect);
        }
        extent
    }

    fn with(self, rect: &Rect) -> Extent {
        let width = rect.x2.abs_diff(rect.x1);
        let height = rect.y2.abs_diff(rect.y1);
        Extent {
            left: self.left.min(rect.x1),
            bottom: self.bottom.min(rect.y1),
            right: self.right.max(rect.x2),
            top: self.top.max(rect.y2),
            sides: self.sides.saturating_add(width).saturating_add(height),
        }
    }

    /// The logarithm of a side above the mean of the widths and heights of so many rectangles.
    fn least_log_side(&self, count: usize) -> u32 {
        let mean = self.sides / (count as u64).saturating_mul(2).max(1);
        64 - mean.leading_zeros()
    }
}

/// In which of so many steps, from a number on, another lies. The first and the last take what lies outside.
fn step_at(from: i64, log_size: u32, count: usize, x: i64) -> usize
    requires narrow { log_size < 64 }
    requires any { 0 < count }
    ensures step { result ≡ step_at from (2 ^ log_size) count x }
    ensures within { result < count }
{
    if x <= from {
        return 0;
    }
    let steps = x.abs_diff(from) >> log_size;
    if steps < count as u64 {
        steps as usize
    } else {
        count - 1
    }
}

impl Grid {
    ghost use Rattle.shape_pairs.specs.Grids.{bin_at, bin_count, column_at, home, row_at};

    /// A grid over rectangles. Any grid is right. This one has at most as many bins as there are rectangles, and they cover at
    /// most four each on the average, where there are 64 of them and coordinates lie within plus or minus 2^61.
    pub(crate) fn over(items: &[Numbered]) -> Grid {
        let extent = Extent::of(items);
        for log_side in extent.least_log_side(items.len())..64 {
            if let Some(grid) = Grid::with_side(&extent, log_side, items.len()) {
                if grid.count_entries(items) / 4 <= items.len() {
                    return grid;
                }
            }
        }
        Grid {
            left: extent.left,
            bottom: extent.bottom,
            log_side: 63,
            columns: 1,
            rows: 1,
        }
    }

    /// The grid of a side over an extent, unless it has more bins than that.
    fn with_side(extent: &Extent, log_side: u32, most: usize) -> Option<Grid>
        requires narrow { log_side < 64 }
        requires few { most < 2 ^ 63 }
    {
        let last_column = extent.right.abs_diff(extent.left) >> log_side;
        let last_row = extent.top.abs_diff(extent.bottom) >> log_side;
        if last_column >= most as u64 || last_row >= most as u64 / (last_column + 1) {
            return None;
        }
        Some(Grid {
            left: extent.left,
            bottom: extent.bottom,
            log_side,
            columns: last_column as usize + 1,
            rows: last_row as usize + 1,
        })
    }

    /// How many bins rectangles cover, each by itself. A count that is too large is cut off.
    pub(crate) fn count_entries(&self, items: &[Numbered]) -> usize {
        let mut count: usize = 0;
        for item in items {
            count = count.saturating_add(self.count_bins(&item.rect));
        }
        count
    }

    /// How many bins a rectangle covers.
    fn count_bins(&self, rect: &Rect) -> usize {
        let columns = self
            .column_at(rect.x2)
            .saturating_sub(self.column_at(rect.x1));
        let rows = self.row_at(rect.y2).saturating_sub(self.row_at(rect.y1));
        columns
            .saturating_add(1)
            .saturating_mul(rows.saturating_add(1))
    }

    /// How many bins there are.
    pub(crate) fn bin_count(&self) -> usize
        ensures { result ≡ bin_count self.now }
    {
        self.rows * self.columns
    }

    /// The column of a number.
    pub(crate) fn column_at(&self, x: i64) -> usize
        ensures column { result ≡ column_at self.now x }
        ensures within { result < self.now.columns }
    {
        step_at(self.left, self.log_side, self.columns, x)
    }

    /// The row of a number.
    pub(crate) fn row_at(&self, y: i64) -> usize
        ensures row { result ≡ row_at self.now y }
        ensures within { result < self.now.rows }
    {
        step_at(self.bottom, self.log_side, self.rows, y)
    }

    /// The bin in a column and a row.
    pub(crate) fn bin_at(&self, column: usize, row: usize) -> usize
        requires column { column < self.now.columns }
        requires row { row < self.now.rows }
        ensures bin { result ≡ bin_at self.now column row }
        ensures within { result < bin_count self.now }
    {
        row * self.columns + column
    }

    /// The bin of the lower left corner of what two rectangles share.
    pub(crate) fn home(&self, a: &Rect, b: &Rect) -> usize
        ensures { result ≡ home self.now (rectangle_of a.now) (rectangle_of b.now) }
    {
        let column = self.column_at(a.x1.max(b.x1));
        let row = self.row_at(a.y1.max(b.y1));
        self.bin_at(column, row)
    }
}
