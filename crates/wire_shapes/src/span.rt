//! Parts of an axis.

ghost use Rattle.std.specs.Prelude.{◌≡◌, ◌≤ℤ◌};
ghost use Rattle.design_model.specs.Views.{rectangle_of};
ghost use Rattle.wire_shapes.specs.SpanViews.{box_of};

use design_model::geometry::Rect;

/// A part of an axis, from its lower to its upper end.
#[derive(Clone, Copy)]
pub(crate) struct Span {
    pub(crate) low: i64,
    pub(crate) high: i64,
    ghost ordered: { low ≤ℤ high },
}

/// The rectangle of two spans.
pub(crate) fn box_of(x: Span, y: Span) -> Rect
    ensures { rectangle_of result ≡ box_of (x.low, x.high) (y.low, y.high) }
{
    Rect {
        x1: x.low,
        y1: y.low,
        x2: x.high,
        y2: y.high,
    }
}
