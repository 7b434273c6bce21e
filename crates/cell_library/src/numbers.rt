//! Numbers of LEF texts, as they are read.

ghost use Rattle.std.specs.Prelude.{◌≡◌, ◌<◌, ◌≤◌, nat_abs};
ghost use Rattle.design_model.specs.Units.{nearest};
ghost use Rattle.lef_grammar.specs.Measures.{point_in, rectangle_in};
ghost use Rattle.design_model.specs.Geometry.{spanned};
ghost use Rattle.design_model.specs.Views.{rectangle_of};
ghost use Rattle.lef_reader.specs.Parts.{corners_view as written_corners, point_view as written_point};
ghost use Rattle.lef_grammar.specs.Definitions.{both_read, corners_read, distance_read, point_read, whole_read};
ghost use Rattle.unit_numbers.specs.Distances.{distance_of};
ghost use Rattle.cell_library.specs.Numbers.{IsWithin, point_view, rectangle_view};

use design_model::geometry;
use lef_reader::point::{Corners, Point};
use lefdef_tokens::Token;
use unit_numbers::{Microns, microns, whole};

/// A point in microns, or a width and a height.
#[derive(Clone, Copy)]
pub struct MicronPoint {
    pub x: Microns,
    pub y: Microns,
}

/// Two corners of a rectangle, in microns.
#[derive(Clone, Copy)]
pub struct MicronRect {
    pub from: MicronPoint,
    pub to: MicronPoint,
}

/// A distance in database units: the nearest whole number, a tie away from zero.
pub fn in_units(distance: Microns, per_micron: u32) -> i64
    requires some { 0 < per_micron }
    requires few { per_micron ≤ 100000 }
    ensures units { result ≡ nearest (distance_of distance) per_micron }
    ensures bound { nat_abs result ≤ 100000000000 }
{
    distance.units(per_micron).value
}

impl MicronPoint {
    /// The point in database units, each number by itself.
    pub fn in_units(self, per_micron: u32) -> geometry::Point
        requires some { 0 < per_micron }
        requires few { per_micron ≤ 100000 }
        ensures units { result ≡ point_in per_micron (point_view self) }
        ensures near { nat_abs result.x ≤ 100000000000 }
        ensures low { nat_abs result.y ≤ 100000000000 }
    {
        geometry::Point {
            x: in_units(self.x, per_micron),
            y: in_units(self.y, per_micron),
        }
    }
}

impl MicronRect {
    /// The rectangle between the corners in database units, each number by itself.
    pub fn in_units(self, per_micron: u32) -> geometry::Rect
        requires some { 0 < per_micron }
        requires few { per_micron ≤ 100000 }
        ensures units { rectangle_of result ≡ rectangle_in per_micron (rectangle_view self) }
        ensures bound { IsWithin 100000000000 (rectangle_of result) }
    {
        span(self.from.in_units(per_micron), self.to.in_units(per_micron))
    }
}

/// The least rectangle round two points.
fn span(a: geometry::Point, b: geometry::Point) -> geometry::Rect
    ensures { rectangle_of result ≡ spanned a b }
{
    geometry::Rect {
        x1: a.x.min(b.x),
        y1: a.y.min(b.y),
        x2: a.x.max(b.x),
        y2: a.y.max(b.y),
    }
}

/// The distance that a word of a text is.
pub(crate) fn read_distance(word: &[u8]) -> Microns
    ensures { distance_of result ≡ distance_read word.now }
{
    match microns(word) {
        Ok(distance) => distance,
        Err(_) => Microns {
            value: 0,
            places: 0,
        },
    }
}

/// The whole number that a word of a text is.
pub(crate) fn read_whole(word: &[u8]) -> i32
    ensures { result ≡ whole_read word.now }
{
    match whole(word) {
        Ok(number) => number,
        Err(_) => 0,
    }
}

/// The point that two words of a text are.
pub(crate) fn read_both(x: Token<'_>, y: Token<'_>) -> MicronPoint
    ensures { point_view result ≡ both_read (x.entry.bytes.now, y.entry.bytes.now) }
{
    MicronPoint {
        x: read_distance(x.bytes),
        y: read_distance(y.bytes),
    }
}

/// A point of a text.
pub(crate) fn read_point(point: Point<'_>) -> MicronPoint
    ensures { point_view result ≡ point_read (written_point point.entry) }
{
    read_both(point.x, point.y)
}

/// Two corners of a text.
pub(crate) fn read_corners(corners: &Corners<'_>) -> MicronRect
    ensures { rectangle_view result ≡ corners_read (written_corners corners.now) }
{
    MicronRect {
        from: read_point(corners.from),
        to: read_point(corners.to),
    }
}
