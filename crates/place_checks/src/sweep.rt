//! Boxes in the order of a sweep from below: by their lower edges, and those of one lower edge by their left edges.

ghost use Rattle.std.specs.Prelude.{◌≡◌, ◌+ℤ◌, ◌++◌, IsPermutation, drop, filter, int_lt, length, pos};
ghost use Rattle.std.specs.Int.Signed.{le_z};
ghost use Rattle.place_checks.specs.Heights.{NoneTaller};
ghost use Rattle.place_checks.specs.Sweep.{InSweepOrder, sweep_cmp};

use crate::swept_box::SweptBox;
use design_model::geometry::Rect;
use std::alloc::Allocator;
use std::cmp::Ordering;

/// The order of two boxes in a sweep.
fn sweep_cmp(a: &SweptBox<'_>, b: &SweptBox<'_>) -> Ordering
    ensures { result ≡ sweep_cmp a.now.rect b.now.rect }
{
    let (a, b) = (&a.rect, &b.rect);
    a.y1.cmp(&b.y1).then(a.x1.cmp(&b.x1))
}

/// Puts boxes into the order of a sweep. It takes no memory.
pub(crate) fn sort_boxes<'t, A: Allocator>(boxes: &mut Vec<SweptBox<'t>, A>)
    ensures sorted { InSweepOrder boxes.new.items }
    ensures same { IsPermutation boxes.old.items boxes.new.items }
{
    boxes.sort_unstable_by(sweep_cmp)
}

/// The boxes whose lower edges are below the upper edge of a rectangle.
pub(crate) fn begin_below<'b, 't>(boxes: &'b [SweptBox<'t>], rect: &Rect) -> &'b [SweptBox<'t>]
    requires { InSweepOrder boxes.now }
    ensures those { result.now ≡ filter (λ b. int_lt b.rect.y1 rect.entry.now.y2) boxes.entry.now }
    ensures sorted { InSweepOrder result.now }
{
    &boxes[..boxes.partition_point(|b| b.rect.y1 < rect.y2)]
}

/// The first boxes, those whose lower edges aren't above that of a rectangle.
pub(crate) fn begin_up_to<'b, 't>(boxes: &'b [SweptBox<'t>], rect: &Rect) -> &'b [SweptBox<'t>]
    requires { InSweepOrder boxes.now }
    ensures those { result.now ≡ filter (λ b. le_z b.rect.y1 rect.entry.now.y1) boxes.entry.now }
    ensures others { drop (length result.now) boxes.entry.now ≡ filter (λ b. int_lt rect.entry.now.y1 b.rect.y1) boxes.entry.now }
    ensures all { result.now ++ drop (length result.now) boxes.entry.now ≡ boxes.entry.now }
{
    &boxes[..boxes.partition_point(|b| b.rect.y1 <= rect.y1)]
}

/// The boxes whose lower edges are above that of a rectangle.
pub(crate) fn begin_above<'b, 't>(boxes: &'b [SweptBox<'t>], rect: &Rect) -> &'b [SweptBox<'t>]
    requires { InSweepOrder boxes.now }
    ensures those { result.now ≡ filter (λ b. int_lt rect.entry.now.y1 b.rect.y1) boxes.entry.now }
    ensures sorted { InSweepOrder result.now }
{
    &boxes[begin_up_to(boxes, rect).len()..]
}

/// Whether a box ends at or below the lower edge of a rectangle, if it is this tall.
fn is_under(box_rect: &Rect, height: u64, rect: &Rect) -> bool
    ensures { result ≡ le_z (box_rect.now.y1 +ℤ pos height) rect.now.y1 }
{
    box_rect.y1 <= rect.y1 && rect.y1.abs_diff(box_rect.y1) >= height
}

/// The boxes that end above the lower edge of a rectangle, if they are this tall.
pub(crate) fn end_above<'b, 't>(
    boxes: &'b [SweptBox<'t>],
    height: u64,
    rect: &Rect,
) -> &'b [SweptBox<'t>]
    requires { InSweepOrder boxes.now }
    ensures { result.now ≡ filter (λ b. int_lt rect.entry.now.y1 (b.rect.y1 +ℤ pos height)) boxes.entry.now }
{
    &boxes[boxes.partition_point(|b| is_under(&b.rect, height, rect))..]
}

/// How high a rectangle is.
fn height(rect: &Rect) -> u64
    ensures { rect.now.y1 +ℤ pos result ≡ rect.now.y2 }
{
    rect.y2.abs_diff(rect.y1)
}

/// The height of the tallest box, or 0 where there is none.
pub(crate) fn greatest_height(boxes: &[SweptBox<'_>]) -> u64
    ensures { NoneTaller boxes.now result }
{
    let mut tallest = 0;
    for b in boxes {
        tallest = tallest.max(height(&b.rect));
    }
    tallest
}
