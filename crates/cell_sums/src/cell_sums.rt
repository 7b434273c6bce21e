//! Sums of areas by the cells of a grid.

ghost use Rattle.std.specs.Prelude.{◌≡◌, ◌<◌, ◌≤◌, ◌+◌, ◌%◌, ◌^◌, ℕ, IfOk, IfSome, OnOk};
ghost use Rattle.std.specs.Option.{option_map};
ghost use Rattle.design_model.specs.Views.{rectangle_of};
ghost use Rattle.measure_rules.specs.GridCells.{cell_among};
ghost use Rattle.cell_sums.specs.Covered.{HoldAll, IsCovered};
ghost use Rattle.cell_sums.specs.Lines.{AreLines};
ghost use Rattle.cell_sums.specs.Sheets.{HasGrown, total};
ghost use Rattle.cell_sums.specs.Tables.{Adds, IsNew, rectangle_gains, spanned, sums};

use crate::blocks::BLOCK;
use crate::lines::GridLines;
use crate::runs::{Run, Strip};
use crate::sheets::Sheet;
use crate::stretch::{Covered, Neighbours, Stretch};
use design_model::geometry::Rect;
use std::alloc::{AllocError, Allocator, Global};
use std::hash::RandomState;
use std::marker::Model;

/// How many times as many rows as columns a rectangle covers, and more, where it is tall.
const TALL: usize = 8;

/// Sums of areas by the cells of a grid, layer by layer, in squares of database units.
pub struct CellSums<A: Allocator = Global> {
    columns: GridLines<A>,
    rows: GridLines<A>,
    /// What rectangles added that aren't tall, along rows.
    flat: Sheet<A>,
    /// What tall rectangles added, along columns.
    upright: Sheet<A>,
    /// How many rectangles were added, a refused one too: no sum is more than that times 2^64.
    added: u64,
}

// (written out, so that who owns this is proved over one call)
impl<A: Allocator> Drop for CellSums<A> {
    fn drop(self) {
        let CellSums {
            columns: _,
            rows: _,
            flat: _,
            upright: _,
            added: _,
        } = self;
    }
}

impl<A: Allocator> Model for CellSums<A> {
    ghost use Rattle.cell_sums.specs.Tables.{AreBounded, CellTable};

    ghost Value = { CellTable };

    ghost view = { λ s. record { columns = s.columns; rows = s.rows; added = s.added; flat = s.flat; upright = s.upright } };

    ghost invariant = { λ s. AreBounded s.columns s.rows s.flat s.upright s.added };
}

/// Adds to each cell of a layer the area that it has in common with a rectangle, strip by strip along the lines of one axis. The two
/// stretches are the rectangle's along and across these. A refused growth may leave some of the areas added.
#[inline(always)]
fn add_strips<A: Allocator + Copy>(
    sheet: &mut Sheet<A>,
    lines: &GridLines<A>,
    crossing: &GridLines<A>,
    layer: usize,
    along: &Covered,
    across: &Covered,
) -> Result<(), AllocError>
    requires lines { AreLines lines.now }
    requires crossing { AreLines crossing.now }
    requires along { IsCovered lines.now along.now.stretch.low along.now.stretch.high along.now.first along.now.end }
    requires across { IsCovered crossing.now across.now.stretch.low across.now.stretch.high across.now.first across.now.end }
    requires fits { (i j : ℕ) → total lines.now sheet.old layer i j + 2 ^ 64 ≤ 2 ^ 128 }
    ensures added { OnOk result (HasGrown lines.now sheet.old sheet.new (rectangle_gains lines.now crossing.now layer (spanned along.now.stretch across.now.stretch))) }
    ensures at_most { (l i j : ℕ) → total lines.now sheet.new l i j ≤ total lines.now sheet.old l i j + 2 ^ 64 }
{
    for major in across.first..across.end {
        let cells = Run {
            layer,
            major,
            first: along.first,
            end: along.end,
        };
        let strip = Strip {
            low: along.stretch.low,
            high: along.stretch.high,
            height: crossing.common_length(major, across.stretch),
        };
        sheet.add(&cells, lines, &strip)?;
    }
    Ok(())
}

/// Two neighbours in one block along one axis, and what is covered along the other, where that is all that a rectangle covers.
#[inline(always)]
fn pair_of<A: Allocator + Copy>(
    lines: &GridLines<A>,
    crossing: &GridLines<A>,
    along: Stretch,
    across: Stretch,
) -> Option<(Neighbours, Covered)>
    ensures along { IfSome result (λ p. HoldAll lines.now p.0) }
    ensures along_is { IfSome result (λ p. p.0.stretch ≡ along) }
    ensures together { IfSome result (λ p. p.0.first % 64 < 63) }
    ensures across { IfSome result (λ p. IsCovered crossing.now p.1.stretch.low p.1.stretch.high p.1.first p.1.end) }
    ensures across_is { IfSome result (λ p. p.1.stretch ≡ across) }
    ensures lines { IfSome result (λ p. AreLines lines.now) }
    ensures crossing { IfSome result (λ p. AreLines crossing.now) }
{
    let pair = lines.neighbours(along)?;
    if pair.first % BLOCK >= BLOCK - 1 {
        return None;
    }
    let covered = crossing.neighbours(across)?.covered();
    Some((pair, covered))
}

/// What `add_strips` does, where a rectangle covers no cells but two neighbours of one block in each strip.
#[inline(always)]
fn add_pairs<A: Allocator + Copy>(
    sheet: &mut Sheet<A>,
    lines: &GridLines<A>,
    crossing: &GridLines<A>,
    layer: usize,
    along: &Neighbours,
    across: &Covered,
) -> Result<(), AllocError>
    requires lines { AreLines lines.now }
    requires crossing { AreLines crossing.now }
    requires along { HoldAll lines.now along.now }
    requires together { along.now.first % 64 < 63 }
    requires across { IsCovered crossing.now across.now.stretch.low across.now.stretch.high across.now.first across.now.end }
    requires fits { (i j : ℕ) → total lines.now sheet.old layer i j + 2 ^ 64 ≤ 2 ^ 128 }
    ensures added { OnOk result (HasGrown lines.now sheet.old sheet.new (rectangle_gains lines.now crossing.now layer (spanned along.now.stretch across.now.stretch))) }
    ensures at_most { (l i j : ℕ) → total lines.now sheet.new l i j ≤ total lines.now sheet.old l i j + 2 ^ 64 }
{
    let _ = lines;
    for major in across.first..across.end {
        let cells = Run {
            layer,
            major,
            first: along.first,
            end: along.first + 2,
        };
        let height = crossing.common_length(major, across.stretch);
        sheet.add_to_two(&cells, along.length * height, along.next_length * height)?;
    }
    Ok(())
}

/// What `add_strips` does, for tall rectangles. These are rare, so what it needs room for stays out of the way of others.
#[inline(never)]
fn add_tall<A: Allocator + Copy>(
    sheet: &mut Sheet<A>,
    lines: &GridLines<A>,
    crossing: &GridLines<A>,
    layer: usize,
    along: &Covered,
    across: &Covered,
) -> Result<(), AllocError>
    requires lines { AreLines lines.now }
    requires crossing { AreLines crossing.now }
    requires along { IsCovered lines.now along.now.stretch.low along.now.stretch.high along.now.first along.now.end }
    requires across { IsCovered crossing.now across.now.stretch.low across.now.stretch.high across.now.first across.now.end }
    requires fits { (i j : ℕ) → total lines.now sheet.old layer i j + 2 ^ 64 ≤ 2 ^ 128 }
    ensures added { OnOk result (HasGrown lines.now sheet.old sheet.new (rectangle_gains lines.now crossing.now layer (spanned along.now.stretch across.now.stretch))) }
    ensures at_most { (l i j : ℕ) → total lines.now sheet.new l i j ≤ total lines.now sheet.old l i j + 2 ^ 64 }
{
    add_strips(sheet, lines, crossing, layer, along, across)
}

/// Adds to each cell of a layer the area that it has in common with a rectangle of any size. This is rarer, and stays out of line.
#[inline(never)]
fn add_any<A: Allocator + Copy>(
    flat: &mut Sheet<A>,
    upright: &mut Sheet<A>,
    columns: &GridLines<A>,
    rows: &GridLines<A>,
    layer: usize,
    rect: Rect,
) -> Result<(), AllocError>
    requires flat_fits { (i j : ℕ) → total columns.now flat.old layer i j + 2 ^ 64 ≤ 2 ^ 128 }
    requires upright_fits { (i j : ℕ) → total rows.now upright.old layer i j + 2 ^ 64 ≤ 2 ^ 128 }
    ensures added { (added : ℕ) → OnOk result (Adds layer (rectangle_of rect) (record { columns = columns.now; rows = rows.now; added = added; flat = flat.old; upright = upright.old }) (record { columns = columns.now; rows = rows.now; added = added + 1; flat = flat.new; upright = upright.new })) }
    ensures at_most { (l i j : ℕ) → total columns.now flat.new l i j + total rows.now upright.new l j i ≤ total columns.now flat.old l i j + total rows.now upright.old l j i + 2 ^ 64 }
{
    let covered_columns = columns.covered(Stretch {
        low: rect.x1,
        high: rect.x2,
    });
    let covered_rows = rows.covered(Stretch {
        low: rect.y1,
        high: rect.y2,
    });
    let count = covered_columns.end - covered_columns.first;
    if covered_rows.end - covered_rows.first > count.saturating_mul(TALL) {
        return add_tall(
            upright,
            rows,
            columns,
            layer,
            &covered_rows,
            &covered_columns,
        );
    }
    add_strips(flat, columns, rows, layer, &covered_columns, &covered_rows)
}

impl<A: Allocator + Copy> CellSums<A> {
    /// No sums yet, for the cells between these lines. It takes no memory.
    pub fn new(
        alloc: A,
        hash_builder: RandomState,
        columns: GridLines<A>,
        rows: GridLines<A>,
    ) -> CellSums<A>
        ensures { IsNew columns rows result }
    {
        CellSums {
            columns,
            rows,
            flat: Sheet::new(alloc, hash_builder),
            upright: Sheet::new(alloc, hash_builder),
            added: 0,
        }
    }

    /// No sums yet, for the same cells.
    pub fn none_alike(&self, alloc: A, hash_builder: RandomState) -> Result<CellSums<A>, AllocError>
        ensures { IfOk result (IsNew self.now.columns self.now.rows) }
    {
        let columns = self.columns.copied(alloc)?;
        let rows = self.rows.copied(alloc)?;
        Ok(CellSums::new(alloc, hash_builder, columns, rows))
    }

    /// Adds to each cell of a layer the area that it has in common with a rectangle. A refused growth may leave some of them added.
    /// After 2^64 - 1 rectangles, refused ones counted, any more is refused as memory is, and adds nothing.
    #[inline(always)]
    pub fn add(&mut self, layer: usize, rect: Rect) -> Result<(), AllocError>
        ensures { OnOk result (Adds layer (rectangle_of rect) self.old self.new) }
    {
        self.added = self.added.checked_add(1).ok_or(AllocError)?;
        let across = Stretch {
            low: rect.x1,
            high: rect.x2,
        };
        let upward = Stretch {
            low: rect.y1,
            high: rect.y2,
        };
        if let Some((columns, rows)) = pair_of(&self.columns, &self.rows, across, upward) {
            return add_pairs(
                &mut self.flat,
                &self.columns,
                &self.rows,
                layer,
                &columns,
                &rows,
            );
        }
        add_any(
            &mut self.flat,
            &mut self.upright,
            &self.columns,
            &self.rows,
            layer,
            rect,
        )
    }

    /// The sum of a cell on a layer; `None` where there is no such cell. Layers, columns and rows count from 0. It takes no memory.
    pub fn sum(&self, layer: usize, column: usize, row: usize) -> Option<u128>
        ensures { result ≡ option_map (λ cell. sums self.now layer column row) (cell_among self.now.columns self.now.rows column row) }
    {
        self.columns.between(column)?;
        self.rows.between(row)?;
        let flat = self.flat.sum(&self.columns, layer, column, row);
        let upright = self.upright.sum(&self.rows, layer, row, column);
        Some(flat + upright)
    }
}
