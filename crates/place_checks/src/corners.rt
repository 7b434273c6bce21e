//! Points and rectangles of statements, in database units.

ghost use Rattle.std.specs.Prelude.{◌≡◌, ◌≤◌, Some, nat_abs};
ghost use Rattle.design_model.specs.Geometry.{spanned};
ghost use Rattle.design_model.specs.Views.{rectangle_of};
ghost use Rattle.form_meanings.specs.Words.{first};
ghost use Rattle.def_grammar.specs.Points.{corner_points, place_of};
ghost use Rattle.def_parts.specs.PointViews.{corners_view, point_view};
ghost use Rattle.def_grammar.specs.Points.{rectangles_of};
ghost use Rattle.place_checks.specs.Corners.{IsCornerOf};

use def_parts::point::Coordinates;
use def_parts::points::Corners;
use design_model::geometry::{Point, Rect};
use orient_geom::span;
use place_parts::standing::Spot;

/// Where a component stands, in database units.
pub(crate) fn corner_of(spot: Spot) -> Point
    ensures is { IsCornerOf spot result }
    ensures across { nat_abs result.x ≤ 2147483648 }
    ensures up { nat_abs result.y ≤ 2147483648 }
{
    Point {
        x: spot.x as i64,
        y: spot.y as i64,
    }
}

/// The rectangle between two corners, in any order.
pub(crate) fn rectangle_between(first: Coordinates<'_>, second: Coordinates<'_>) -> Rect
    ensures { rectangle_of result ≡ spanned (place_of (point_view first.entry)) (place_of (point_view second.entry)) }
{
    span(first.place(), second.place())
}

/// The rectangle between two corners, where the second one may repeat a coordinate of the first by `*`.
pub(crate) fn corner_rectangle(corners: &Corners<'_>) -> Rect
    ensures { Some (rectangle_of result) ≡ first (rectangles_of (corner_points (corners_view corners.now))) }
{
    rectangle_between(corners.first, corners.second.after(corners.first))
}
