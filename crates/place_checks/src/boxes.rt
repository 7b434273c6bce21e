//! The boxes of the components that take part in the place checks.

ghost use Rattle.std.specs.Prelude.{◌≡◌, ◌≤◌, ◌<◌, ℕ, IfOk, map};
ghost use Rattle.std.specs.List.{filter_map};
ghost use Rattle.std.specs.Option.{option_map};
ghost use Rattle.def_grammar.specs.Parts.{Coordinates};
ghost use Rattle.lef_grammar.specs.Library.{Macro};
ghost use Rattle.design_rules.specs.Boxes.{box_at, box_of, component_box};
ghost use Rattle.def_reader.specs.StatementViews.{record_view, records_view};
ghost use Rattle.place_parts.specs.ComponentViews.{component_view};
ghost use Rattle.place_checks.specs.Corners.{IsSpotAt};
ghost use Rattle.place_checks.specs.Outlines.{IsOutline};
ghost use Rattle.place_checks.specs.Views.{boxed_view};

use crate::corners::corner_of;
use crate::last_macros::LastMacros;
use crate::outline::Outline;
use crate::placed_box::PlacedBox;
use crate::pushing::put_behind;
use cell_library::library::Library;
use def_reader::entry::Entry;
use def_reader::statement::Statement;
use design_model::geometry::Status;
use orient_geom::place_box;
use place_parts::component_parts::ComponentParts;
use place_parts::standing::{Spot, Standing};
use std::alloc::{AllocError, Allocator};

/// The box of a component that stands there, where its macro is no cover.
fn box_at<'t>(
    outline: &Outline<'t>,
    parts: &ComponentParts<'t>,
    spot: Spot,
) -> Option<PlacedBox<'t>>
    requires { (u : ℕ) × (m : Macro) × IsOutline u m outline.now }
    ensures { (u : ℕ) (m : Macro) (at : Coordinates) → IsOutline u m outline.now → IsSpotAt spot at → option_map boxed_view result ≡ box_at u (component_view parts.now) at spot.orient m }
{
    if outline.is_cover() {
        return None;
    }
    Some(PlacedBox {
        name: parts.name.bytes,
        rect: place_box(spot.orient, outline.boundary, corner_of(spot)),
        orient: spot.orient,
        class: outline.class,
        sites: outline.sites,
        region: parts.region,
    })
}

/// The box of a component that takes part: one that is placed or fixed, of a known macro that is no cover.
fn component_box<'t, A: Allocator + Copy>(
    macros: &mut LastMacros<'t, '_, A>,
    parts: &ComponentParts<'t>,
) -> Option<PlacedBox<'t>>
    ensures value { option_map boxed_view result ≡ component_box macros.old.library macros.old.scale (component_view parts.now) }
    ensures same { macros.new ≡ macros.old }
{
    let Some(Standing::At(spot)) = parts.standing else {
        return None;
    };
    match spot.status {
        Status::Placed | Status::Fixed => match macros.outline_of(parts.cell.bytes) {
            Some(outline) => box_at(&outline, parts, spot),
            None => None,
        },
        Status::Cover => None,
    }
}

/// The box of a statement that is a component that takes part.
pub fn box_of<'t, A: Allocator + Copy>(
    macros: &mut LastMacros<'t, '_, A>,
    statement: &Statement<'t>,
) -> Option<PlacedBox<'t>>
    ensures value { option_map boxed_view result ≡ box_of macros.old.library macros.old.scale (record_view statement.now) }
    ensures same { macros.new ≡ macros.old }
{
    match statement {
        Statement::Entry(Entry::Component(parts)) => component_box(macros, parts),
        _ => None,
    }
}

/// The boxes of the components among statements that take part, in their order, by the scale of their design.
pub fn boxes_among<'t, A: Allocator + Copy>(
    alloc: A,
    library: &'t Library<'_, A>,
    scale: u32,
    records: &[Statement<'t>],
) -> Result<Vec<PlacedBox<'t>, A>, AllocError>
    requires some { 0 < scale }
    requires few { scale ≤ 100000 }
    ensures { IfOk result (λ v. map boxed_view v.items ≡ filter_map (box_of library.now scale) (records_view records.now)) }
{
    let mut macros = LastMacros::new(library, scale);
    let mut boxes = or_error!(Vec::with_capacity(alloc, records.len()));
    for statement in records {
        let Some(placed) = box_of(&mut macros, statement) else {
            continue;
        };
        or_error!(put_behind(placed, &mut boxes));
    }
    Ok(boxes)
}
