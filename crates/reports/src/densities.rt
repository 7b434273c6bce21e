//! How dense the cells of a grid are.

ghost use Rattle.std.specs.Prelude.{◌≡◌, ◌<◌, ◌≤◌, [], IfOk, OnOk, flat_map, map};
ghost use Rattle.std.specs.List.{All, filter_map};
ghost use Rattle.std.specs.Option.{option_map};
ghost use Rattle.design_model.specs.Views.{rectangle_of};
ghost use Rattle.design_model.specs.Ranges.{IsWithin};
ghost use Rattle.design_rules.specs.Boxes.{box_of, boxes, scale};
ghost use Rattle.def_reader.specs.StatementViews.{record_view, records_view};
ghost use Rattle.measure_rules.specs.GridCells.{columns, lines_along_x, lines_along_y, rows};
ghost use Rattle.reports.specs.Densities.{HoldsDensities, HoldsMore, box_shape};

use crate::cell_densities::CellDensities;
use cell_library::library::Library;
use def_reader::statement::Statement;
use design_grid::{columns_of, rows_of};
use design_model::geometry::Rect;
use design_names::names::Names;
use place_checks::boxes::box_of;
use place_checks::last_macros::LastMacros;
use place_checks::scale::scale_of;
use std::alloc::{AllocError, Allocator};

/// The densities of no shapes in the cells of a design.
pub(crate) fn no_densities<A: Allocator + Copy>(
    alloc: A,
    names: &Names<'_, '_, A>,
) -> Result<CellDensities<A>, AllocError>
    requires across { All (IsWithin 2147483647) (flat_map lines_along_x names.now) }
    requires upward { All (IsWithin 2147483647) (flat_map lines_along_y names.now) }
    ensures { IfOk result (HoldsDensities (columns names.entry.now) (rows names.entry.now) []) }
{
    let columns = columns_of(alloc, names.records())?;
    let rows = rows_of(alloc, names.records())?;
    Ok(CellDensities::new(alloc, names.hash_builder(), columns, rows))
}

/// The box of a statement that is a component that takes part.
fn rect_of<'t, A: Allocator + Copy>(
    macros: &mut LastMacros<'t, '_, A>,
    statement: &Statement<'t>,
) -> Option<Rect>
    ensures value { option_map rectangle_of result ≡ option_map (λ b. b.box) (box_of macros.old.library macros.old.scale (record_view statement.now)) }
    ensures same { macros.new ≡ macros.old }
{
    let placed = box_of(macros, statement)?;
    Some(placed.rect)
}

/// Adds the boxes of the components among statements that take part to the densities of cells, all on layer 0.
fn add_boxes<'t, A: Allocator + Copy>(
    densities: &mut CellDensities<A>,
    library: &'t Library<'_, A>,
    scale: u32,
    records: &[Statement<'t>],
) -> Result<(), AllocError>
    requires some { 0 < scale }
    requires few { scale ≤ 100000 }
    ensures { OnOk result (HoldsMore (map box_shape (filter_map (box_of library.now scale) (records_view records.now))) densities.old densities.new) }
{
    let mut macros = LastMacros::new(library, scale);
    for statement in records {
        let rect = rect_of(&mut macros, statement);
        densities.add_box(rect)?;
    }
    Ok(())
}

/// The densities of the components of a design that take part, all on layer 0, in the cells that others are of.
pub(crate) fn place_densities<'t, A: Allocator + Copy>(
    alloc: A,
    library: &'t Library<'_, A>,
    names: &Names<'_, 't, A>,
    others: &CellDensities<A>,
) -> Result<CellDensities<A>, AllocError>
    requires some { 0 < scale names.now }
    requires few { scale names.now ≤ 100000 }
    requires columns { others.now.columns ≡ columns names.now }
    requires rows { others.now.rows ≡ rows names.now }
    ensures { IfOk result (HoldsDensities (columns names.entry.now) (rows names.entry.now) (map box_shape (boxes library.entry.now names.entry.now))) }
{
    let records = names.records();
    let mut densities = others.none_alike(alloc, names.hash_builder())?;
    add_boxes(&mut densities, library, scale_of(records), records)?;
    Ok(densities)
}
