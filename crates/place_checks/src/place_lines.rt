//! The lines of components in rows, in the die and in fences.

ghost use Rattle.std.specs.Prelude.{◌≡◌, ◌++◌, flat_map, map, OnOk};
ghost use Rattle.design_rules.specs.PlaceLines.{lines_in};
ghost use Rattle.design_rules.specs.Surroundings.{Surroundings as Around};
ghost use Rattle.place_checks.specs.IndexViews.{surroundings_view};
ghost use Rattle.place_checks.specs.SameSurroundings.{HaveSameLines};
ghost use Rattle.place_checks.specs.Views.{bare, boxed_view, swept_view};

use crate::fences::put_at_borders;
use crate::placed_box::PlacedBox;
use crate::pushing::put_behind;
use crate::row_index::NO_EDGE;
use crate::rows::{put_by_rows, put_in_rows};
use crate::surroundings::Surroundings;
use crate::swept_box::SweptBox;
use report_lines::Lines;
use std::alloc::{AllocError, Allocator};

/// Puts the lines of one component in its surroundings.
pub fn lines_in<'t, A: Allocator + Copy>(
    alloc: A,
    surroundings: &Surroundings<'t, A>,
    component: &PlacedBox<'t>,
    lines: &mut Lines<A>,
) -> Result<(), AllocError>
    ensures { OnOk result (lines.new ≡ lines.old ++ lines_in (surroundings_view surroundings.now) (boxed_view component.now)) }
{
    or_error!(put_in_rows(&surroundings.rows, component, lines));
    put_at_borders(alloc, surroundings, component, lines)
}

/// Puts the lines of components in their surroundings, in the order of the components.
///
/// Rows are looked up anew where the lower edge differs from that of the component before.
fn all_lines_in<'t, A: Allocator + Copy>(
    alloc: A,
    surroundings: &Surroundings<'t, A>,
    boxes: &[PlacedBox<'t>],
    lines: &mut Lines<A>,
) -> Result<(), AllocError>
    ensures { OnOk result (lines.new ≡ lines.old ++ flat_map (lines_in (surroundings_view surroundings.now)) (map boxed_view boxes.now)) }
{
    let rows = &surroundings.rows;
    let elsewhere = rows.at_edge(NO_EDGE);
    let mut edge = NO_EDGE;
    let mut beside = elsewhere;
    for component in boxes {
        beside = rows.at_next_edge(edge, beside, component.rect.y1);
        edge = component.rect.y1;
        or_error!(put_by_rows(beside, elsewhere, component, lines));
        or_error!(put_at_borders(alloc, surroundings, component, lines));
    }
    Ok(())
}

/// Puts what a sweep knows of components behind what it knows of others.
fn push_swept<'t, A: Allocator>(
    components: &[PlacedBox<'t>],
    boxes: &mut Vec<SweptBox<'t>, A>,
) -> Result<(), AllocError>
    ensures { OnOk result (map swept_view boxes.new.items ≡ map swept_view boxes.old.items ++ map bare (map boxed_view components.now)) }
{
    for component in components {
        or_error!(put_behind(component.swept(), boxes));
    }
    Ok(())
}

/// Puts the lines of components in their surroundings behind others, and what a sweep knows of them behind what it knows of others.
pub fn put_components<'t, A: Allocator + Copy>(
    alloc: A,
    surroundings: &Surroundings<'t, A>,
    components: &[PlacedBox<'t>],
    boxes: &mut Vec<SweptBox<'t>, A>,
    lines: &mut Lines<A>,
) -> Result<(), AllocError>
    ensures lines { (s : Around) → HaveSameLines (surroundings_view surroundings.now) s
        → OnOk result (lines.new ≡ lines.old ++ flat_map (lines_in s) (map boxed_view components.now)) }
    ensures boxes { OnOk result (map swept_view boxes.new.items ≡ map swept_view boxes.old.items ++ map bare (map boxed_view components.now)) }
{
    or_error!(all_lines_in(alloc, surroundings, components, lines));
    push_swept(components, boxes)
}
