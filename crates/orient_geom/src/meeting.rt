//! Rectangles that meet.

ghost use Rattle.std.specs.Prelude.{◌≡◌, ◌&&◌, IsTrue, option_map};
ghost use Rattle.std.specs.Int.{int_max, int_min};
ghost use Rattle.std.specs.Int.Signed.{le_z};
ghost use Rattle.design_model.specs.Views.{rectangle_of};
ghost use Rattle.shape_rules.specs.Meeting.{common, meets, shared};

use design_model::geometry::{Point, Rect};

/// Whether two rectangles share a point: touching is enough.
pub fn meets(a: Rect, b: Rect) -> bool
    ensures { result ≡ meets (rectangle_of a) (rectangle_of b) }
{
    meets_across(&a, &b) && meets_upward(&a, &b)
}

/// Whether two rectangles share an x.
fn meets_across(a: &Rect, b: &Rect) -> bool
    ensures { result ≡ (le_z a.now.x1 b.now.x2 && le_z b.now.x1 a.now.x2) }
{
    a.x1 <= b.x2 && b.x1 <= a.x2
}

/// Whether two rectangles share a y.
fn meets_upward(a: &Rect, b: &Rect) -> bool
    ensures { result ≡ (le_z a.now.y1 b.now.y2 && le_z b.now.y1 a.now.y2) }
{
    a.y1 <= b.y2 && b.y1 <= a.y2
}

/// The greater of the lower ends in x and in y.
fn lower_left(a: &Rect, b: &Rect) -> Point
    ensures { result ≡ record { x = int_max a.now.x1 b.now.x1; y = int_max a.now.y1 b.now.y1 } }
{
    Point {
        x: a.x1.max(b.x1),
        y: a.y1.max(b.y1),
    }
}

/// The lesser of the upper ends in x and in y.
fn upper_right(a: &Rect, b: &Rect) -> Point
    ensures { result ≡ record { x = int_min a.now.x2 b.now.x2; y = int_min a.now.y2 b.now.y2 } }
{
    Point {
        x: a.x2.min(b.x2),
        y: a.y2.min(b.y2),
    }
}

/// What two rectangles that meet share.
fn shared(a: &Rect, b: &Rect) -> Rect
    requires { IsTrue (meets (rectangle_of a.now) (rectangle_of b.now)) }
    ensures { rectangle_of result ≡ shared (rectangle_of a.now) (rectangle_of b.now) }
{
    let lower = lower_left(a, b);
    let upper = upper_right(a, b);
    Rect {
        x1: lower.x,
        y1: lower.y,
        x2: upper.x,
        y2: upper.y,
    }
}

/// The rectangle of the points that two rectangles share: a line or a point where they only touch.
pub fn common(a: Rect, b: Rect) -> Option<Rect>
    ensures { option_map rectangle_of result ≡ common (rectangle_of a) (rectangle_of b) }
{
    if meets(a, b) {
        Some(shared(&a, &b))
    } else {
        None
    }
}
