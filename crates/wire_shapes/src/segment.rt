//! The wire between two points.

ghost use Rattle.std.specs.Prelude.{◌≡◌, pos, ◌+ℤ◌, ◌-ℤ◌, ◌≤ℤ◌};
ghost use Rattle.design_model.specs.Geometry.{IsNearRectangle};
ghost use Rattle.design_model.specs.Views.{rectangle_of};
ghost use Rattle.wire_rules.specs.Paths.{across, along_x, along_y, segment_between, stretch};
ghost use Rattle.design_model.specs.Ranges.{IsSize};
ghost use Rattle.wire_rules.specs.ViaShapes.{half};
ghost use Rattle.wire_shapes.specs.ItemViews.{IsCoordinate, IsPlace};
ghost use Rattle.wire_shapes.specs.PieceViews.{IsPieceNear, piece_view};
ghost use Rattle.wire_shapes.specs.SpanViews.{IsSpan};

use crate::piece::Piece;
use crate::span::{Span, box_of};
use crate::wiring_makings::LayerShape;
use design_model::geometry::{Point, Rect};

/// What a wire covers between two ends, and past each.
#[inline(always)]
fn ends(low: i64, past_low: i64, high: i64, past_high: i64) -> Span
    requires low { IsCoordinate low }
    requires past_low { IsSize past_low }
    requires high { IsCoordinate high }
    requires past_high { IsSize past_high }
    requires ordered { low ≤ℤ high }
    ensures { IsSpan (low -ℤ past_low, high +ℤ past_high) result.low result.high }
{
    Span {
        low: low - past_low,
        high: high + past_high,
    }
}

/// What a wire covers along its axis, from `a` to `b` and past each.
#[inline(always)]
fn stretch(a: i64, past_a: i64, b: i64, past_b: i64) -> Span
    requires a { IsCoordinate a }
    requires past_a { IsSize past_a }
    requires b { IsCoordinate b }
    requires past_b { IsSize past_b }
    ensures { IsSpan (stretch a past_a b past_b) result.low result.high }
{
    if a <= b {
        ends(a, past_a, b, past_b)
    } else {
        ends(b, past_b, a, past_a)
    }
}

/// The half of a width, to the next lower number.
#[inline(always)]
fn half(width: i64) -> i64
    requires { IsSize width }
    ensures value { result ≡ half width }
    ensures low { pos 0 ≤ℤ result }
    ensures high { result ≤ℤ width }
{
    width / 2
}

/// What a wire of a width covers across its axis.
#[inline(always)]
fn across(centre: i64, width: i64) -> Span
    requires centre { IsCoordinate centre }
    requires width { IsSize width }
    ensures { IsSpan (across centre width) result.low result.high }
{
    let low = half(width);
    Span {
        low: centre - low,
        high: centre + (width - low),
    }
}

/// The wire from `a` to `b`, which have one y, and past each.
#[inline(always)]
fn along_x(a: Point, past_a: i64, b: Point, past_b: i64, width: i64) -> Rect
    requires a { IsPlace a }
    requires past_a { IsSize past_a }
    requires b { IsPlace b }
    requires past_b { IsSize past_b }
    requires width { IsSize width }
    ensures is { rectangle_of result ≡ along_x a past_a b past_b width }
    ensures near { IsNearRectangle (rectangle_of result) }
{
    box_of(stretch(a.x, past_a, b.x, past_b), across(a.y, width))
}

/// The wire from `a` to `b`, which have one x, and past each.
#[inline(always)]
fn along_y(a: Point, past_a: i64, b: Point, past_b: i64, width: i64) -> Rect
    requires a { IsPlace a }
    requires past_a { IsSize past_a }
    requires b { IsPlace b }
    requires past_b { IsSize past_b }
    requires width { IsSize width }
    ensures is { rectangle_of result ≡ along_y a past_a b past_b width }
    ensures near { IsNearRectangle (rectangle_of result) }
{
    box_of(across(a.x, width), stretch(a.y, past_a, b.y, past_b))
}

/// A wire of a width on a layer, from `a` to `b` and past each.
#[inline(always)]
pub(crate) fn segment_between<'t>(
    layer: &'t [u8],
    width: i64,
    a: Point,
    past_a: i64,
    b: Point,
    past_b: i64,
) -> Piece<'t>
    requires width { IsSize width }
    requires a { IsPlace a }
    requires past_a { IsSize past_a }
    requires b { IsPlace b }
    requires past_b { IsSize past_b }
    ensures is { piece_view result ≡ segment_between layer.now width a past_a b past_b }
    ensures near { IsPieceNear result }
{
    if a.y == b.y {
        let rect = along_x(a, past_a, b, past_b, width);
        Piece::Segment {
            shape: LayerShape { layer, rect },
            length: b.x.abs_diff(a.x),
        }
    } else if a.x == b.x {
        let rect = along_y(a, past_a, b, past_b, width);
        Piece::Segment {
            shape: LayerShape { layer, rect },
            length: b.y.abs_diff(a.y),
        }
    } else {
        Piece::Diagonal
    }
}
