//! The components of a text in two halves, so that what is known of them for a sweep needn't be held at once.

ghost use Rattle.std.specs.Prelude.{◌≡◌, ◌<◌, ◌≤◌, IfOk, filter, int_lt, map};
ghost use Rattle.std.specs.List.{filter_map};
ghost use Rattle.def_reader.specs.StatementViews.{records_view};
ghost use Rattle.design_rules.specs.Boxes.{box_of};
ghost use Rattle.place_checks.specs.Views.{boxed_view, swept_view};
ghost use Rattle.followed_places.specs.Halves.{is_in};

use cell_library::library::Library;
use def_reader::statement::Statement;
use place_checks::boxes::boxes_among;
use place_checks::placed_box::PlacedBox;
use place_checks::swept_box::SweptBox;
use std::alloc::{AllocError, Allocator};

/// The components whose lower edges are below an ordinate, or the others.
#[derive(Clone, Copy)]
pub(crate) enum Half {
    Below(i64),
    From(i64),
}

/// Whether a component is in a half.
fn is_in(half: Half, component: &PlacedBox<'_>) -> bool
    ensures { result ≡ is_in half (boxed_view component.now) }
{
    match half {
        Half::Below(ordinate) => component.rect.y1 < ordinate,
        Half::From(ordinate) => component.rect.y1 >= ordinate,
    }
}

/// The components of a half among statements, in their order, by the scale of their design.
pub(crate) fn components_in<'t, A: Allocator + Copy>(
    alloc: A,
    library: &'t Library<'_, A>,
    scale: u32,
    half: Half,
    statements: &[Statement<'t>],
) -> Result<Vec<PlacedBox<'t>, A>, AllocError>
    requires some { 0 < scale }
    requires few { scale ≤ 100000 }
    ensures { IfOk result (λ v. map boxed_view v.items ≡ filter (is_in half) (filter_map (box_of library.entry.now scale) (records_view statements.now))) }
{
    let all = boxes_among(alloc, library, scale, statements)?;
    let mut found = Vec::new(alloc);
    for component in &all {
        if is_in(half, component) {
            found.push(*component)?;
        }
    }
    Ok(found)
}

/// Those of some components in a sweep that reach above an ordinate, in their order.
pub(crate) fn reaching<'t, A: Allocator + Copy>(
    alloc: A,
    boxes: &[SweptBox<'t>],
    ordinate: i64,
) -> Result<Vec<SweptBox<'t>, A>, AllocError>
    ensures { IfOk result (λ v. map swept_view v.items ≡ filter (λ b. int_lt ordinate b.box.y2) (map swept_view boxes.now)) }
{
    let mut found = Vec::new(alloc);
    for swept in boxes {
        if swept.rect.y2 > ordinate {
            found.push(*swept)?;
        }
    }
    Ok(found)
}
