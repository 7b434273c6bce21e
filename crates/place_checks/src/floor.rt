//! The rows and the die of a design (LEF/DEF 5.8 Language Reference, "Rows" and "Die Area").

ghost use Rattle.std.specs.Prelude.{◌≡◌, ◌≤◌, ◌<◌, IfOk, map, nat_abs};
ghost use Rattle.std.specs.Option.{option_map};
ghost use Rattle.design_model.specs.Views.{rectangle_of};
ghost use Rattle.place_parts.specs.DieAreaViews.{die_area_view};
ghost use Rattle.place_parts.specs.RowViews.{row_view, sites_view};
ghost use Rattle.place_rules.specs.Sites.{turned_size};
ghost use Rattle.entry_rules.specs.WireItems.{count_of};
ghost use Rattle.design_rules.specs.Boxes.{scale};
ghost use Rattle.design_rules.specs.Surroundings as parts;
ghost use Rattle.design_rules.specs.Surroundings.{columns_of, die, placed_row, placed_rows, site_size, two_points};
ghost use Rattle.place_checks.specs.PlaceViews.{placed_row_view};
ghost use Rattle.place_checks.specs.RowSizes.{IsSmallPoint, step_in};
ghost use Rattle.def_reader.specs.StatementViews.{records_view};

use crate::corners::rectangle_between;
use crate::placed_row::PlacedRow;
use crate::pushing::put_behind;
use crate::scale::scale_of;
use cell_library::library::Library;
use def_parts::number::int_of;
use def_reader::floor::Floor;
use def_reader::statement::Statement;
use design_model::geometry::{Orient, Point, Rect};
use lefdef_tokens::Token;
use place_kernels::sites::{SiteRow, turned_site};
use place_parts::die_area::DieAreaParts;
use place_parts::rows::{RowParts, SiteArray};
use std::alloc::{AllocError, Allocator};

/// The width and the height of a site: 0 by 0 where it has no `SIZE`, or isn't defined.
fn site_size<A: Allocator + Copy>(library: &Library<'_, A>, scale: u32, name: &[u8]) -> Point
    requires some { 0 < scale }
    requires few { scale ≤ 100000 }
    ensures units { result ≡ site_size library.now scale name.now }
    ensures small { IsSmallPoint result }
{
    let size = match library.site(name) {
        Some(site) => site.size,
        None => None,
    };
    match size {
        Some(size) => size.in_units(scale),
        None => Point { x: 0, y: 0 },
    }
}

/// The width and the height of a site after a turn.
fn turned_size(orient: Orient, size: Point) -> Point
    requires { IsSmallPoint size }
    ensures turned { result ≡ turned_size orient size }
    ensures small { IsSmallPoint result }
{
    turned_site(orient, size)
}

/// The number of times that a word says.
fn count_of(word: Token<'_>) -> u32
    ensures { result ≡ count_of word.entry.bytes.now }
{
    int_of(word.bytes).unsigned_abs()
}

/// How many sites a row has in x: one without `DO`.
fn columns_of(sites: &Option<SiteArray<'_>>) -> u32
    ensures { result ≡ columns_of (sites_view sites.now) }
{
    match sites {
        Some(array) => count_of(array.columns),
        None => 1,
    }
}

/// How many sites a row has in y: one without `DO`.
fn lines_of(sites: &Option<SiteArray<'_>>) -> u32
    ensures { result ≡ parts.lines_of (sites_view sites.now) }
{
    match sites {
        Some(array) => count_of(array.rows),
        None => 1,
    }
}

/// How far apart the sites of a row are: they touch where it has no `STEP`.
fn step_of(size: Point, sites: &Option<SiteArray<'_>>) -> Point
    requires { IsSmallPoint size }
    ensures units { result ≡ step_in size (sites_view sites.now) }
    ensures small { IsSmallPoint result }
{
    match sites {
        Some(
            SiteArray {
                step: Some(step),
                ..
            },
        ) => step.place(),
        _ => size,
    }
}

/// A row, with its sites as they stand.
fn placed_row<'t, A: Allocator + Copy>(
    library: &Library<'_, A>,
    scale: u32,
    row: &RowParts<'t>,
) -> PlacedRow<'t>
    requires some { 0 < scale }
    requires few { scale ≤ 100000 }
    ensures { placed_row_view result ≡ placed_row library.now scale (row_view row.now) }
{
    let size = turned_size(row.orient, site_size(library, scale, row.site.bytes));
    let sites = SiteRow {
        origin: row.origin.place(),
        columns: columns_of(&row.sites),
        rows: lines_of(&row.sites),
        step: step_of(size, &row.sites),
        size,
    };
    PlacedRow {
        site: row.site.bytes,
        orient: row.orient,
        sites,
    }
}

/// The rows of a design, in the order of the text.
pub fn rows_of<'t, A: Allocator + Copy>(
    alloc: A,
    library: &Library<'_, A>,
    records: &[Statement<'t>],
) -> Result<Vec<PlacedRow<'t>, A>, AllocError>
    requires some { 0 < scale (records_view records.now) }
    requires few { scale (records_view records.now) ≤ 100000 }
    ensures { IfOk result (λ v. map placed_row_view v.items ≡ placed_rows library.now (records_view records.now)) }
{
    let scale = scale_of(records);
    let mut rows = Vec::new(alloc);
    for statement in records {
        if let Statement::Floor(Floor::Row(row)) = statement {
            let row = placed_row(library, scale, &row.parts());
            or_error!(put_behind(row, &mut rows));
        }
    }
    Ok(rows)
}

/// The rectangle of a die's area that has two points.
fn two_points(area: &DieAreaParts<'_>) -> Option<Rect>
    ensures { option_map rectangle_of result ≡ two_points (die_area_view area.now) }
{
    if area.others.again().peek().is_some() {
        return None;
    }
    Some(rectangle_between(area.first, area.second.after(area.first)))
}

/// The die of a design, where its area is a rectangle, of two points.
pub fn die_of(records: &[Statement<'_>]) -> Option<Rect>
    ensures { option_map rectangle_of result ≡ die (records_view records.now) }
{
    for statement in records {
        if let Statement::Floor(Floor::DieArea(area)) = statement {
            let rect = two_points(area);
            if rect.is_some() {
                return rect;
            }
        }
    }
    None
}
