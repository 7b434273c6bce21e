//! The lines of a design's grid (LEF/DEF 5.8 Language Reference, "GCell Grid").

ghost use Rattle.std.specs.Prelude.{◌≡◌, ◌++◌, ◌≤◌, ◌^◌, ◌+ℤ◌, ◌*ℤ◌, pos, IfOk, OnOk, Some, flat_map};
ghost use Rattle.std.specs.List.{All};
ghost use Rattle.design_model.specs.Ranges.{IsWithin};
ghost use Rattle.def_reader.specs.FloorViews.{floor_view};
ghost use Rattle.def_reader.specs.StatementViews.{record_view, records_view};
ghost use Rattle.def_grammar.specs.Records.{top};
ghost use Rattle.def_grammar.specs.Top.{floor};
ghost use Rattle.measure_rules.specs.GridCells.{columns, lines_along_x, lines_along_y, lines_of, rows};
ghost use Rattle.place_parts.specs.GridViews.{axis_view, gcell_grid_view, lines_view};
ghost use Rattle.design_grid.specs.Along.{grid_along, is_along, lines_along};

use cell_sums::GridLines;
use def_parts::number::int_of;
use def_reader::floor::Floor;
use def_reader::statement::Statement;
use place_parts::grids::{Axis, GcellGridParts};
use std::alloc::{AllocError, Allocator};

/// Whether lines are placed along x, where those are asked for, or along y.
fn is_along(along_x: bool, axis: Axis) -> bool
    ensures { result ≡ is_along along_x (axis_view axis) }
{
    match axis {
        Axis::X => along_x,
        Axis::Y => !along_x,
    }
}

/// The line of a number, from 0, among lines that follow each other so far apart.
fn line_at(start: i32, step: i32, at: u32) -> i64
    requires { at ≤ 2 ^ 31 }
    ensures { result ≡ start +ℤ pos at *ℤ step }
{
    let past = at as i64 * step as i64;
    start as i64 + past
}

/// Puts the lines of a statement behind others.
fn put_lines<A: Allocator>(
    grid: &place_parts::grids::GridLines<'_>,
    lines: &mut Vec<i64, A>,
) -> Result<(), AllocError>
    ensures { OnOk result (lines.new.items ≡ lines.old.items ++ lines_of (lines_view grid.now)) }
{
    let start = int_of(grid.start.bytes);
    let count = int_of(grid.count.bytes).unsigned_abs();
    let step = int_of(grid.step.bytes);
    for at in 0..count {
        lines.push(line_at(start, step, at))?;
    }
    Ok(())
}

/// Puts the lines of a statement behind others, if they are placed along the axis that is asked for.
fn put_grid<A: Allocator>(
    grid: &GcellGridParts<'_>,
    along_x: bool,
    lines: &mut Vec<i64, A>,
) -> Result<(), AllocError>
    ensures { OnOk result (lines.new.items ≡ lines.old.items ++ grid_along along_x (Some (gcell_grid_view grid.now))) }
{
    if is_along(along_x, grid.axis) {
        put_lines(&grid.lines, lines)?;
    }
    Ok(())
}

/// Puts the lines of a statement about the floor along an axis behind others.
fn put_floor<A: Allocator>(
    statement: &Floor<'_>,
    along_x: bool,
    lines: &mut Vec<i64, A>,
) -> Result<(), AllocError>
    ensures { OnOk result (lines.new.items ≡ lines.old.items ++ lines_along along_x (top (floor (floor_view statement.now)))) }
{
    match statement {
        Floor::GcellGrid(grid) => put_grid(grid, along_x, lines),
        _ => Ok(()),
    }
}

/// Puts the lines of a statement along an axis behind others.
fn put_statement<A: Allocator>(
    statement: &Statement<'_>,
    along_x: bool,
    lines: &mut Vec<i64, A>,
) -> Result<(), AllocError>
    ensures { OnOk result (lines.new.items ≡ lines.old.items ++ lines_along along_x (record_view statement.now)) }
{
    match statement {
        Statement::Floor(floor) => put_floor(floor, along_x, lines),
        _ => Ok(()),
    }
}

/// The lines of all statements along an axis, in the order of the text.
fn lines_along<A: Allocator + Copy>(
    alloc: A,
    records: &[Statement<'_>],
    along_x: bool,
) -> Result<Vec<i64, A>, AllocError>
    ensures { IfOk result (λ v. v.items ≡ flat_map (lines_along along_x) (records_view records.now)) }
{
    let mut lines = Vec::new(alloc);
    for statement in records {
        put_statement(statement, along_x, &mut lines)?;
    }
    Ok(lines)
}

/// The lines of a design's grid along x, in order, each once. Those of a text that reads are in the range of numbers.
#[tactic(auto, using(crate::proofs::AlongLemmas::all_along_x))]
pub fn columns_of<A: Allocator + Copy>(
    alloc: A,
    records: &[Statement<'_>],
) -> Result<GridLines<A>, AllocError>
    requires { All (IsWithin 2147483647) (flat_map lines_along_x (records_view records.now)) }
    ensures { IfOk result (λ lines. lines ≡ columns (records_view records.entry.now)) }
{
    let lines = lines_along(alloc, records, true)?;
    Ok(GridLines::of(lines))
}

/// The lines of a design's grid along y, in order, each once. Those of a text that reads are in the range of numbers.
#[tactic(auto, using(crate::proofs::AlongLemmas::all_along_y))]
pub fn rows_of<A: Allocator + Copy>(
    alloc: A,
    records: &[Statement<'_>],
) -> Result<GridLines<A>, AllocError>
    requires { All (IsWithin 2147483647) (flat_map lines_along_y (records_view records.now)) }
    ensures { IfOk result (λ lines. lines ≡ rows (records_view records.entry.now)) }
{
    let lines = lines_along(alloc, records, false)?;
    Ok(GridLines::of(lines))
}
