//! Components that lie on one another.

ghost use Rattle.std.specs.Prelude.{◌≡◌, ◌++◌, ◌∷◌, [], OnOk, map, filter, int_lt, if◌then◌else◌};
ghost use Rattle.design_model.specs.Families.{lines_with, pair_lines};
ghost use Rattle.design_model.specs.Order.{greater, lesser};
ghost use Rattle.lefdef_tokens.specs.Views.{word_view};
ghost use Rattle.design_rules.specs.OverlapLines.{overlap_of};
ghost use Rattle.place_checks.specs.Sweep.{FromLeft, InSweepOrder};
ghost use Rattle.place_checks.specs.Views.{boxed_view, swept_view};

use crate::placed_box::PlacedBox;
use crate::sweep::{begin_above, begin_below, begin_up_to};
use crate::swept_box::SweptBox;
use design_model::diagnostic::DiagKind;
use orient_geom::overlaps;
use report_lines::Lines;
use std::alloc::{AllocError, Allocator};

/// Two names in the order of their bytes.
fn in_order<'t>(a: &'t [u8], b: &'t [u8]) -> [&'t [u8]; 2]
    ensures { map word_view result ≡ lesser a.entry.now b.entry.now ∷ greater a.entry.now b.entry.now ∷ [] }
{
    if b.cmp(a).is_lt() { [b, a] } else { [a, b] }
}

/// Puts the line of two boxes that overlap, the lesser name first.
fn put_overlap<'t, A: Allocator + Copy>(
    first: &SweptBox<'t>,
    other: &SweptBox<'t>,
    lines: &mut Lines<A>,
) -> Result<(), AllocError>
    ensures { OnOk result (lines.new ≡ lines.old ++ overlap_of (swept_view first.now) (swept_view other.now)) }
{
    if !overlaps(&first.rect, &other.rect) {
        return Ok(());
    }
    let names = in_order(first.name, other.name);
    lines.put(DiagKind::Overlap, &names, &[])
}

/// Puts a line for each of the other components that a component overlaps, in whatever order they stand.
pub(crate) fn put_overlaps_with<'t, A: Allocator + Copy>(
    first: &PlacedBox<'t>,
    others: &[PlacedBox<'t>],
    lines: &mut Lines<A>,
) -> Result<(), AllocError>
    ensures { OnOk result (lines.new ≡ lines.old ++ lines_with overlap_of (boxed_view first.now) (map boxed_view others.now)) }
{
    let swept = first.swept();
    for other in others {
        or_error!(put_overlap(&swept, &other.swept(), lines));
    }
    Ok(())
}

/// Puts a line for each of the boxes behind a box in its row that it overlaps.
fn put_beside<'t, A: Allocator + Copy>(
    first: &SweptBox<'t>,
    row: &[SweptBox<'t>],
    lines: &mut Lines<A>,
) -> Result<(), AllocError>
    requires { FromLeft row.now }
    ensures { OnOk result (lines.new ≡ lines.old ++ lines_with overlap_of (swept_view first.now) (map swept_view row.now)) }
{
    for next in row {
        // Those behind begin no further left.
        if next.rect.x1 >= first.rect.x2 {
            return Ok(());
        }
        or_error!(put_overlap(first, next, lines));
    }
    Ok(())
}

/// What is left to compare with a box of those behind one: all, or, where that one is not left of the box's right edge,
/// those that begin above it.
fn left_behind<'b, 't>(
    behind: &'b [SweptBox<'t>],
    one: &SweptBox<'t>,
    first: &SweptBox<'t>,
) -> &'b [SweptBox<'t>]
    requires { InSweepOrder behind.now }
    ensures those { result.now ≡ (if int_lt one.entry.now.rect.x1 first.entry.now.rect.x2 then behind.entry.now else filter (λ b. int_lt one.entry.now.rect.y1 b.rect.y1) behind.entry.now) }
    ensures sorted { InSweepOrder result.now }
{
    if one.rect.x1 < first.rect.x2 {
        return behind;
    }
    begin_above(behind, &one.rect)
}

/// Puts a line for each of the other boxes that a box overlaps.
fn put_overlaps<'t, A: Allocator + Copy>(
    first: &SweptBox<'t>,
    others: &[SweptBox<'t>],
    lines: &mut Lines<A>,
) -> Result<(), AllocError>
    requires { InSweepOrder others.now }
    ensures { OnOk result (lines.new ≡ lines.old ++ lines_with overlap_of (swept_view first.now) (map swept_view others.now)) }
{
    let mut left = begin_below(others, &first.rect);
    while let Some((next, behind)) = left.split_first() {
        or_error!(put_overlap(first, next, lines));
        left = left_behind(behind, next, first);
    }
    Ok(())
}

/// Puts a line for each of the boxes above the row of a box that it overlaps.
pub(crate) fn put_above<'t, A: Allocator + Copy>(
    first: &SweptBox<'t>,
    above: &[SweptBox<'t>],
    lines: &mut Lines<A>,
) -> Result<(), AllocError>
    requires { InSweepOrder above.now }
    ensures { OnOk result (lines.new ≡ lines.old ++ lines_with overlap_of (swept_view first.now) (map swept_view above.now)) }
{
    let Some((lowest, _)) = above.split_first() else {
        return Ok(());
    };
    // Mostly the next row begins where the box ends, and nothing has to be looked for.
    if lowest.rect.y1 >= first.rect.y2 {
        return Ok(());
    }
    put_overlaps(first, above, lines)
}

/// Puts the lines of the boxes of a row, with one another and with those above the row.
fn put_row<'t, A: Allocator + Copy>(
    row: &[SweptBox<'t>],
    above: &[SweptBox<'t>],
    lines: &mut Lines<A>,
) -> Result<(), AllocError>
    requires row { FromLeft row.now }
    requires above { InSweepOrder above.now }
    ensures { OnOk result (lines.new ++ pair_lines overlap_of (map swept_view above.now) ≡ lines.old ++ pair_lines overlap_of (map swept_view (row.now ++ above.now))) }
{
    for (i, first) in row.iter().enumerate() {
        or_error!(put_beside(first, &row[i + 1..], lines));
        or_error!(put_above(first, above, lines));
    }
    Ok(())
}

/// Puts a line for each pair of components that overlap, in the order of the boxes.
///
/// The boxes are gone over by rows, those of one lower edge. Each box is compared with those behind it in its row up to
/// its right edge, and with those above the row that begin below its upper edge and, at their height, left of its right
/// edge.
pub(crate) fn overlaps_of<A: Allocator + Copy>(
    boxes: &[SweptBox<'_>],
    lines: &mut Lines<A>,
) -> Result<(), AllocError>
    requires { InSweepOrder boxes.now }
    ensures { OnOk result (lines.new ≡ lines.old ++ pair_lines overlap_of (map swept_view boxes.now)) }
{
    let mut left = boxes;
    while let Some((first, _)) = left.split_first() {
        let row = begin_up_to(left, &first.rect);
        let above = &left[row.len()..];
        or_error!(put_row(row, above, lines));
        left = above;
    }
    Ok(())
}
