//! Rectangles, turned, placed and compared.

ghost use Rattle.std.specs.Prelude.{◌≡◌, ◌^◌, ◌-ℤ◌, int_lt};
ghost use Rattle.std.specs.Int.{int_min, int_max};
ghost use Rattle.design_model.specs.Geometry.{IsNear, IsNearRectangle, turned_point, spanned, turned, moved, placed, placed_box, overlap};
ghost use Rattle.design_model.specs.Views.{rectangle_of};
ghost use Rattle.wire_rules.specs.Placed.{turned_at};
ghost use Rattle.design_model.specs.Ranges.{IsPointWithin};

use design_model::geometry::{Orient, Point, Rect};

/// Where an orientation sends a point.
fn turn_point(orient: Orient, point: Point) -> Point
    requires x_near { IsNear point.x }
    requires y_near { IsNear point.y }
    ensures value { result ≡ turned_point orient point }
    ensures x_near { IsNear result.x }
    ensures y_near { IsNear result.y }
{
    let Point { x, y } = point;
    match orient {
        Orient::N => Point { x, y },
        Orient::W => Point { x: -y, y: x },
        Orient::S => Point { x: -x, y: -y },
        Orient::E => Point { x: y, y: -x },
        Orient::FN => Point { x: -x, y },
        Orient::FS => Point { x, y: -y },
        Orient::FW => Point { x: y, y: x },
        Orient::FE => Point { x: -y, y: -x },
    }
}

/// The least rectangle round two points.
pub fn span(a: Point, b: Point) -> Rect
    ensures { rectangle_of result ≡ spanned a b }
{
    Rect {
        x1: a.x.min(b.x),
        y1: a.y.min(b.y),
        x2: a.x.max(b.x),
        y2: a.y.max(b.y),
    }
}

/// A rectangle, turned about the origin (LEF/DEF 5.8 Language Reference, "Specifying Orientation").
pub fn turn(orient: Orient, rect: Rect) -> Rect
    requires { IsNearRectangle (rectangle_of rect) }
    ensures value { rectangle_of result ≡ turned orient (rectangle_of rect) }
    ensures near { IsNearRectangle (rectangle_of result) }
{
    let lower_left = Point {
        x: rect.x1,
        y: rect.y1,
    };
    let upper_right = Point {
        x: rect.x2,
        y: rect.y2,
    };
    span(
        turn_point(orient, lower_left),
        turn_point(orient, upper_right),
    )
}

/// A rectangle, moved by this much in x and in y.
pub fn move_by(rect: Rect, by: Point) -> Rect
    requires near { IsNearRectangle (rectangle_of rect) }
    requires by_near { IsPointWithin (2 ^ 62) by }
    ensures { rectangle_of result ≡ moved by.x by.y (rectangle_of rect) }
{
    Rect {
        x1: rect.x1 + by.x,
        y1: rect.y1 + by.y,
        x2: rect.x2 + by.x,
        y2: rect.y2 + by.y,
    }
}

/// How far it is in x and in y from the lower left corner of a box to a point.
fn way(corner: Rect, at: Point) -> Point
    requires near { IsNearRectangle (rectangle_of corner) }
    requires x_near { IsNear at.x }
    requires y_near { IsNear at.y }
    ensures x { result.x ≡ at.x -ℤ (rectangle_of corner).x1 }
    ensures y { result.y ≡ at.y -ℤ (rectangle_of corner).y1 }
    ensures near { IsPointWithin (2 ^ 62) result }
{
    Point {
        x: at.x - corner.x1,
        y: at.y - corner.y1,
    }
}

/// A rectangle of a component with this boundary, given as its macro gives it: turned, and then moved so that the lower
/// left corner of the turned boundary is at the given point (LEF/DEF 5.8 Language Reference, "Components").
pub fn place_rect(orient: Orient, boundary: Rect, at: Point, rect: Rect) -> Rect
    requires boundary_near { IsNearRectangle (rectangle_of boundary) }
    requires x_near { IsNear at.x }
    requires y_near { IsNear at.y }
    requires rect_near { IsNearRectangle (rectangle_of rect) }
    ensures { rectangle_of result ≡ placed orient (rectangle_of boundary) at (rectangle_of rect) }
{
    let corner = turn(orient, boundary);
    move_by(turn(orient, rect), way(corner, at))
}

/// The box of a component with this boundary: turned, and then moved so that its lower left corner is at the
/// given point (LEF/DEF 5.8 Language Reference, "Components").
pub fn place_box(orient: Orient, boundary: Rect, at: Point) -> Rect
    requires near { IsNearRectangle (rectangle_of boundary) }
    requires x_near { IsNear at.x }
    requires y_near { IsNear at.y }
    ensures { rectangle_of result ≡ placed_box orient (rectangle_of boundary) at }
{
    let turned = turn(orient, boundary);
    move_by(turned, way(turned, at))
}

/// A rectangle of a pin or of a via at the given point: turned about the origin, and then moved by the point
/// (LEF/DEF 5.8 Language Reference, "Pins").
pub fn pin_rect(orient: Orient, at: Point, rect: Rect) -> Rect
    requires x_near { IsNear at.x }
    requires y_near { IsNear at.y }
    requires near { IsNearRectangle (rectangle_of rect) }
    ensures { rectangle_of result ≡ turned_at orient at (rectangle_of rect) }
{
    move_by(turn(orient, rect), at)
}

/// Whether two rectangles share more than an end from left to right.
fn share_width(a: &Rect, b: &Rect) -> bool
    ensures { result ≡ int_lt (int_max a.now.x1 b.now.x1) (int_min a.now.x2 b.now.x2) }
{
    a.x1.max(b.x1) < a.x2.min(b.x2)
}

/// Whether two rectangles share more than an end from bottom to top.
fn share_height(a: &Rect, b: &Rect) -> bool
    ensures { result ≡ int_lt (int_max a.now.y1 b.now.y1) (int_min a.now.y2 b.now.y2) }
{
    a.y1.max(b.y1) < a.y2.min(b.y2)
}

/// Whether two rectangles share area: a shared edge or corner is none.
pub fn overlaps(a: &Rect, b: &Rect) -> bool
    ensures { result ≡ overlap (rectangle_of a.now) (rectangle_of b.now) }
{
    share_width(a, b) && share_height(a, b)
}
