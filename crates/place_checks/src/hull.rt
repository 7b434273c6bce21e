//! The least rectangle round several, by which a box that is far from all of them is told in one comparison.

ghost use Rattle.std.specs.Prelude.{◌≡◌, map};
ghost use Rattle.design_model.specs.Views.{rectangle_of};
ghost use Rattle.place_checks.specs.Hulls.{hull_of, is_apart, is_beside, is_over, joined};

use design_model::geometry::Rect;

/// The least rectangle round two.
fn joined(a: Rect, b: &Rect) -> Rect
    ensures { rectangle_of result ≡ joined (rectangle_of a) (rectangle_of b.now) }
{
    Rect {
        x1: a.x1.min(b.x1),
        y1: a.y1.min(b.y1),
        x2: a.x2.max(b.x2),
        y2: a.y2.max(b.y2),
    }
}

/// The least rectangle round all of these, and a point where there is none.
pub(crate) fn hull_of(rectangles: &[Rect]) -> Rect
    ensures { rectangle_of result ≡ hull_of (map rectangle_of rectangles.now) }
{
    let Some((first, others)) = rectangles.split_first() else {
        return Rect {
            x1: 0,
            y1: 0,
            x2: 0,
            y2: 0,
        };
    };
    let mut hull = *first;
    for rect in others {
        hull = joined(hull, rect);
    }
    hull
}

/// Whether one of two rectangles lies wholly left or right of the other, where edges may touch.
fn is_beside(a: &Rect, b: &Rect) -> bool
    ensures { result ≡ is_beside (rectangle_of a.now) (rectangle_of b.now) }
{
    a.x2 <= b.x1 || b.x2 <= a.x1
}

/// Whether one of two rectangles lies wholly below or above the other, where edges may touch.
fn is_over(a: &Rect, b: &Rect) -> bool
    ensures { result ≡ is_over (rectangle_of a.now) (rectangle_of b.now) }
{
    a.y2 <= b.y1 || b.y2 <= a.y1
}

/// Whether two rectangles lie apart from each other, where edges may touch: then they share no area.
pub(crate) fn is_apart(a: &Rect, b: &Rect) -> bool
    ensures { result ≡ is_apart (rectangle_of a.now) (rectangle_of b.now) }
{
    is_beside(a, b) || is_over(a, b)
}
