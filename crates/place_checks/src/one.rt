//! The lines of one component among others, for who follows a change of a design.

ghost use Rattle.std.specs.Prelude.{◌≡◌, ◌++◌, map, OnOk};
ghost use Rattle.design_model.specs.Views.{rectangle_of};
ghost use Rattle.line_laws.specs.OneLaws.{own_lines};
ghost use Rattle.place_checks.specs.IndexViews.{surroundings_view};
ghost use Rattle.place_checks.specs.Views.{boxed_view};

use crate::blocked::put_blocked_by;
use crate::overlap::put_overlaps_with;
use crate::place_lines::lines_in;
use crate::placed_box::PlacedBox;
use crate::surroundings::Surroundings;
use design_model::geometry::Rect;
use report_lines::Lines;
use std::alloc::{AllocError, Allocator};

/// Puts all lines of a component behind others: with each of the other components, in its surroundings, and with each rectangle where
/// placement is blocked.
pub fn put_own_lines<'t, A: Allocator + Copy>(
    alloc: A,
    surroundings: &Surroundings<'t, A>,
    component: &PlacedBox<'t>,
    others: &[PlacedBox<'t>],
    keep_outs: &[Rect],
    lines: &mut Lines<A>,
) -> Result<(), AllocError>
    ensures { OnOk result (lines.new ≡ lines.old ++ own_lines (surroundings_view surroundings.now) (map rectangle_of keep_outs.now) (boxed_view component.now) (map boxed_view others.now)) }
{
    or_error!(put_overlaps_with(component, others, lines));
    or_error!(lines_in(alloc, surroundings, component, lines));
    put_blocked_by(component, keep_outs, lines)
}
