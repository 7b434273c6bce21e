//! The lines of components with one another and with what keeps them out.

ghost use Rattle.std.specs.Prelude.{◌≡◌, ◌++◌, IsPermutation, List, OnOk, ℕ, map};
ghost use Rattle.design_model.specs.Families.{cross_lines, pair_lines};
ghost use Rattle.design_model.specs.Views.{rectangle_of};
ghost use Rattle.design_rules.specs.Boxes.{Boxed};
ghost use Rattle.design_rules.specs.OverlapLines.{overlap_of};
ghost use Rattle.design_rules.specs.PlaceLines.{blocked_of};
ghost use Rattle.line_laws.specs.Lines.{SameLines};
ghost use Rattle.place_checks.specs.Sweep.{InSweepOrder};
ghost use Rattle.place_checks.specs.Views.{bare, swept_view};

use crate::blocked::blocked_of;
use crate::overlap::{overlaps_of, put_above};
use crate::sweep::sort_boxes;
use crate::swept_box::SweptBox;
use design_model::geometry::Rect;
use line_laws::each::crosses_are_unordered;
use line_laws::pairs::overlap_lines_are_unordered;
use line_laws::same::{maps_are_same, permutations_are_same};
use report_lines::Lines;
use std::alloc::{AllocError, Allocator};

/// Puts the lines of components with one another, and with each rectangle where placement is blocked, behind others. It puts the boxes into
/// the order of a sweep, and takes memory for lines alone.
pub fn put_lines_between<'t, A: Allocator + Copy>(
    boxes: &mut Vec<SweptBox<'t>, A>,
    keep_outs: &[Rect],
    lines: &mut Lines<A>,
) -> Result<(), AllocError>
    ensures lines { (components : List Boxed) (before own : List (List ℕ)) → map swept_view boxes.old.items ≡ map bare components → lines.old ≡ before ++ own
        → OnOk result (SameLines lines.new (before ++ (pair_lines overlap_of components ++ (own ++ cross_lines blocked_of components (map rectangle_of keep_outs.now))))) }
    ensures sorted { InSweepOrder boxes.new.items }
    ensures same { IsPermutation boxes.old.items boxes.new.items }
{
    permutations_are_same::<SweptBox<'t>>();
    maps_are_same::<SweptBox<'t>>();
    overlap_lines_are_unordered();
    crosses_are_unordered();
    sort_boxes(boxes);
    or_error!(overlaps_of(boxes, lines));
    blocked_of(boxes, keep_outs, lines)
}

/// Puts the lines of each of some components with each of others, which stand in the order of a sweep, behind others.
pub fn put_lines_across<'t, A: Allocator + Copy>(
    some: &[SweptBox<'t>],
    others: &[SweptBox<'t>],
    lines: &mut Lines<A>,
) -> Result<(), AllocError>
    requires { InSweepOrder others.now }
    ensures { OnOk result (lines.new ≡ lines.old ++ cross_lines overlap_of (map swept_view some.now) (map swept_view others.now)) }
{
    for one in some {
        or_error!(put_above(one, others, lines));
    }
    Ok(())
}
