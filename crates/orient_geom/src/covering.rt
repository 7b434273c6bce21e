//! Whether rectangles cover a box.

ghost use Rattle.std.specs.Prelude.{◌≡◌, ◌<ℤ◌, ◌≤ℤ◌, map, false, MatchOption};
ghost use Rattle.design_model.specs.Views.{rectangle_of};
ghost use Rattle.place_rules.specs.Covering.{has_square, is_covered, is_from_to};
ghost use Rattle.orient_geom.specs.Strips.{HasSquareOf, IsCoveredTo, NoneHasSquare};

use design_model::geometry::Rect;

/// Whether a number is at least `low` and below `high`.
fn is_from_to(low: i64, high: i64, value: i64) -> bool
    ensures { result ≡ is_from_to low high value }
{
    low <= value && value < high
}

/// Whether the unit square with this lower left corner lies in a rectangle.
fn has_square(rect: &Rect, x: i64, y: i64) -> bool
    ensures { result ≡ has_square x y (rectangle_of rect.now) }
{
    is_from_to(rect.x1, rect.x2, x) && is_from_to(rect.y1, rect.y2, y)
}

/// The first rectangle that this unit square lies in.
fn first_with_square(list: &[Rect], x: i64, y: i64) -> Option<&Rect>
    ensures { MatchOption result (NoneHasSquare (map rectangle_of list.now) x y) (λ r. HasSquareOf (map rectangle_of list.now) x y (rectangle_of r.now)) }
{
    list.iter().find(|rect| has_square(rect, x, y))
}

/// How far up the rectangles cover a box from this y on, or nothing where they don't cover it there.
fn covered_to(area: &Rect, list: &[Rect], y: i64) -> Option<i64>
    requires low { area.now.y1 ≤ℤ y }
    requires high { y <ℤ area.now.y2 }
    ensures { MatchOption result (is_covered (rectangle_of area.now) (map rectangle_of list.now) ≡ false) (λ top. IsCoveredTo (rectangle_of area.now) (map rectangle_of list.now) y top) }
{
    let mut x = area.x1;
    let mut top = area.y2;
    while x < area.x2 {
        let rect = first_with_square(list, x, y)?;
        x = rect.x2;
        top = top.min(rect.y2);
    }
    Some(top)
}

/// Whether each unit square of a box lies in one of the rectangles.
///
/// It goes up in strips, each as high as the lowest of its rectangles, so its time grows with the number of rectangles
/// and not with the area.
pub fn covered(area: Rect, list: &[Rect]) -> bool
    ensures { result ≡ is_covered (rectangle_of area) (map rectangle_of list.now) }
{
    let mut y = area.y1;
    while y < area.y2 {
        let Some(top) = covered_to(&area, list, y) else {
            return false;
        };
        y = top;
    }
    true
}
