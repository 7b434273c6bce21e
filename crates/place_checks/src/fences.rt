//! Components and the die, and components and fences (LEF/DEF 5.8 Language Reference, "Die Area", "Regions" and "Groups").

ghost use Rattle.std.specs.Prelude.{◌≡◌, ◌++◌, map, OnOk};
ghost use Rattle.std.specs.List.{list_any};
ghost use Rattle.std.specs.Option.{option_map};
ghost use Rattle.design_model.specs.Geometry.{overlap};
ghost use Rattle.design_model.specs.Views.{rectangle_of};
ghost use Rattle.lefdef_tokens.specs.Views.{word_view};
ghost use Rattle.design_rules.specs.PlaceLines.{fence_lines, outside_lines};
ghost use Rattle.place_checks.specs.FenceLines.{fence_lines_by, fence_lines_in};
ghost use Rattle.place_checks.specs.IndexViews.{surroundings_view};
ghost use Rattle.place_checks.specs.PlaceViews.{fence_view};
ghost use Rattle.place_checks.specs.Views.{boxed_view};

use crate::fence::Fence;
use crate::hull::is_apart;
use crate::names::is_one_of;
use crate::placed_box::PlacedBox;
use crate::surroundings::Surroundings;
use design_model::diagnostic::DiagKind;
use design_model::geometry::Rect;
use orient_geom::{covered, overlaps};
use report_lines::Lines;
use std::alloc::{AllocError, Allocator};

/// Whether a box overlaps one of some rectangles.
fn overlaps_any(area: &Rect, rectangles: &[Rect]) -> bool
    ensures { result ≡ list_any (overlap (rectangle_of area.now)) (map rectangle_of rectangles.now) }
{
    for rect in rectangles {
        if overlaps(area, rect) {
            return true;
        }
    }
    false
}

/// Puts the line of a component that reaches out of the die, where that is known.
fn put_outside<A: Allocator + Copy>(
    die: Option<Rect>,
    component: &PlacedBox<'_>,
    lines: &mut Lines<A>,
) -> Result<(), AllocError>
    ensures { OnOk result (lines.new ≡ lines.old ++ outside_lines (option_map rectangle_of die) (boxed_view component.now)) }
{
    let Some(die) = die else {
        return Ok(());
    };
    if covered(component.rect, &[die]) {
        return Ok(());
    }
    lines.put(DiagKind::Outside, &[component.name], &[])
}

/// Puts the line of a component that reaches out of a fence that it is assigned to, or that lies in another one.
fn put_fence<A: Allocator + Copy>(
    fence: &Fence<'_, A>,
    is_assigned: bool,
    component: &PlacedBox<'_>,
    lines: &mut Lines<A>,
) -> Result<(), AllocError>
    ensures { OnOk result (lines.new ≡ lines.old ++ fence_lines_by is_assigned (boxed_view component.now) (fence_view fence.now)) }
{
    let rectangles = fence.rectangles.as_slice();
    let kind = if is_assigned {
        if covered(component.rect, rectangles) {
            return Ok(());
        }
        DiagKind::Fence
    } else {
        if !overlaps_any(&component.rect, rectangles) {
            return Ok(());
        }
        DiagKind::Intruder
    };
    lines.put(kind, &[component.name, fence.name], &[])
}

/// Puts the lines of a component, which is assigned to these regions, and fences.
fn put_fences<A: Allocator + Copy>(
    fences: &[Fence<'_, A>],
    regions: &[&[u8]],
    component: &PlacedBox<'_>,
    lines: &mut Lines<A>,
) -> Result<(), AllocError>
    ensures { OnOk result (lines.new ≡ lines.old ++ fence_lines_in (map word_view regions.now) (boxed_view component.now) (map fence_view fences.now)) }
{
    for fence in fences {
        // Most components are far from most fences.
        if is_apart(&component.rect, &fence.hull) && !is_one_of(regions, fence.name) {
            continue;
        }
        or_error!(put_fence(fence, is_one_of(regions, fence.name), component, lines));
    }
    Ok(())
}

/// Puts the lines of a component that reaches out of the die or of a fence that it is assigned to, or that lies in another
/// fence.
pub(crate) fn put_at_borders<'t, A: Allocator + Copy>(
    alloc: A,
    surroundings: &Surroundings<'t, A>,
    component: &PlacedBox<'t>,
    lines: &mut Lines<A>,
) -> Result<(), AllocError>
    ensures { let s = surroundings_view surroundings.now in let c = boxed_view component.now in
        OnOk result (lines.new ≡ lines.old ++ (outside_lines s.die c ++ fence_lines s c)) }
{
    or_error!(put_outside(surroundings.die, component, lines));
    let mut regions = Vec::new(alloc);
    let assignments = &surroundings.assignments;
    or_error!(assignments.put_regions_of(component, &mut regions));
    put_fences(&surroundings.fences, &regions, component, lines)
}
