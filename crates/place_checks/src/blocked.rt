//! Components that lie where placement is blocked (LEF/DEF 5.8 Language Reference, "Blockages").

ghost use Rattle.std.specs.Prelude.{◌≡◌, ◌++◌, OnOk, flat_map, map};
ghost use Rattle.design_model.specs.Views.{rectangle_of};
ghost use Rattle.design_model.specs.Families.{cross_lines};
ghost use Rattle.design_rules.specs.PlaceLines.{blocked_of};
ghost use Rattle.line_laws.specs.Lines.{SameLines};
ghost use Rattle.place_checks.specs.Sweep.{InSweepOrder};
ghost use Rattle.place_checks.specs.Views.{boxed_view, swept_view};

use crate::placed_box::PlacedBox;
use crate::sweep::{begin_below, end_above, greatest_height};
use crate::swept_box::SweptBox;
use design_model::diagnostic::DiagKind;
use design_model::geometry::Rect;
use line_laws::each::crosses_turn;
use orient_geom::overlaps;
use report_lines::Lines;
use std::alloc::{AllocError, Allocator};

/// Puts the line of a component that lies on a rectangle where placement is blocked.
fn put_blocked<A: Allocator + Copy>(
    component: &SweptBox<'_>,
    rect: &Rect,
    lines: &mut Lines<A>,
) -> Result<(), AllocError>
    ensures { OnOk result (lines.new ≡ lines.old ++ blocked_of (swept_view component.now) (rectangle_of rect.now)) }
{
    if !overlaps(&component.rect, rect) {
        return Ok(());
    }
    let corners = [rect.x1, rect.y1, rect.x2, rect.y2];
    lines.put(DiagKind::Blocked, &[component.name], &corners)
}

/// Puts a line for each rectangle where placement is blocked that a component lies on.
pub(crate) fn put_blocked_by<A: Allocator + Copy>(
    component: &PlacedBox<'_>,
    keep_outs: &[Rect],
    lines: &mut Lines<A>,
) -> Result<(), AllocError>
    ensures { OnOk result (lines.new ≡ lines.old ++ flat_map (blocked_of (boxed_view component.now)) (map rectangle_of keep_outs.now)) }
{
    let swept = component.swept();
    for rect in keep_outs {
        or_error!(put_blocked(&swept, rect, lines));
    }
    Ok(())
}

/// Puts a line for each of some components that lies on a rectangle where placement is blocked, in their order.
pub fn put_blockage<A: Allocator + Copy>(
    components: &[PlacedBox<'_>],
    rect: &Rect,
    lines: &mut Lines<A>,
) -> Result<(), AllocError>
    ensures { OnOk result (lines.new ≡ lines.old ++ flat_map (λ c. blocked_of c (rectangle_of rect.now)) (map boxed_view components.now)) }
{
    for component in components {
        or_error!(put_blocked(&component.swept(), rect, lines));
    }
    Ok(())
}

/// The same of boxes in a sweep.
fn put_all_blocked<A: Allocator + Copy>(
    boxes: &[SweptBox<'_>],
    rect: &Rect,
    lines: &mut Lines<A>,
) -> Result<(), AllocError>
    ensures { OnOk result (lines.new ≡ lines.old ++ flat_map (λ c. blocked_of c (rectangle_of rect.now)) (map swept_view boxes.now)) }
{
    for swept in boxes {
        or_error!(put_blocked(swept, rect, lines));
    }
    Ok(())
}

/// Puts a line for each component and each rectangle where placement is blocked that it lies on.
///
/// A rectangle is compared with those boxes alone that begin below its upper edge, and less than the height of the
/// tallest below its lower edge.
pub(crate) fn blocked_of<A: Allocator + Copy>(
    boxes: &[SweptBox<'_>],
    keep_outs: &[Rect],
    lines: &mut Lines<A>,
) -> Result<(), AllocError>
    requires { InSweepOrder boxes.now }
    ensures { OnOk result (SameLines lines.new (lines.old ++ cross_lines blocked_of (map swept_view boxes.now) (map rectangle_of keep_outs.now))) }
{
    let tallest = greatest_height(boxes);
    for rect in keep_outs {
        let near = end_above(begin_below(boxes, rect), tallest, rect);
        or_error!(put_all_blocked(near, rect, lines));
    }
    // Which of the two lists is gone over first makes no difference to the lines.
    crosses_turn();
    Ok(())
}
