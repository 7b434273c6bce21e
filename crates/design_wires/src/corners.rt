//! Rectangles of vias of DEF, in database units.

ghost use Rattle.std.specs.Prelude.{◌≡◌};
ghost use Rattle.design_model.specs.Views.{rectangle_of};
ghost use Rattle.def_parts.specs.PointViews.{corners_view};
ghost use Rattle.net_rules.specs.ViaRectangles.{box_of};
ghost use Rattle.design_model.specs.Ranges.{IsBoxWithin};

use def_parts::points::Corners;
use design_model::geometry::Rect;
use orient_geom::span;

/// The rectangle between two corners, where the second one may repeat a coordinate of the first by `*`.
pub(crate) fn corner_rectangle(corners: &Corners<'_>) -> Rect
    ensures is { rectangle_of result ≡ box_of (corners_view corners.now) }
    ensures near { IsBoxWithin 100000000000 (rectangle_of result) }
{
    let second = corners.second.after(corners.first);
    span(corners.first.place(), second.place())
}
