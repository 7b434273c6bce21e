//! The least rectangle round shapes of which some are exchanged.

ghost use Rattle.std.specs.Prelude.{◌≡◌, ◌&&◌, ◌++◌, int_lt, IfSome, IsTrue, List, map};
ghost use Rattle.std.specs.Option.{option_map};
ghost use Rattle.design_model.specs.Geometry.{Rectangle};
ghost use Rattle.design_model.specs.Views.{rectangle_of};
ghost use Rattle.measure_rules.specs.NetBoxes.{around, around_all, box_round};
ghost use Rattle.net_lists.specs.PartCuts.{shape_view};
ghost use Rattle.followed_measures.specs.Bounds.{AreInside, BoxFollows, boxes_in, is_inside};

use design_model::geometry::Rect;
use net_lists::NetShape;

/// Whether a rectangle lies in another in x, away from its sides.
fn is_inside_across(bounds: &Rect, rect: &Rect) -> bool
    ensures { result ≡ (int_lt bounds.now.x1 rect.now.x1 && int_lt rect.now.x2 bounds.now.x2) }
{
    bounds.x1 < rect.x1 && rect.x2 < bounds.x2
}

/// Whether it does in y.
fn is_inside_upward(bounds: &Rect, rect: &Rect) -> bool
    ensures { result ≡ (int_lt bounds.now.y1 rect.now.y1 && int_lt rect.now.y2 bounds.now.y2) }
{
    bounds.y1 < rect.y1 && rect.y2 < bounds.y2
}

/// Whether a rectangle lies inside of another, away from its sides.
fn is_inside(bounds: Rect, rect: Rect) -> bool
    ensures { result ≡ is_inside (rectangle_of bounds) (rectangle_of rect) }
{
    is_inside_across(&bounds, &rect) && is_inside_upward(&bounds, &rect)
}

/// Whether all these shapes do.
fn are_inside(bounds: Rect, shapes: &[NetShape]) -> bool
    ensures { IsTrue result → AreInside (rectangle_of bounds) (boxes_in (map shape_view shapes.now)) }
{
    for shape in shapes {
        if !is_inside(bounds, shape.rect) {
            return false;
        }
    }
    true
}

/// The least rectangle round two.
fn around(a: Rect, b: Rect) -> Rect
    ensures { rectangle_of result ≡ around (rectangle_of a) (rectangle_of b) }
{
    Rect {
        x1: a.x1.min(b.x1),
        y1: a.y1.min(b.y1),
        x2: a.x2.max(b.x2),
        y2: a.y2.max(b.y2),
    }
}

/// The least rectangle round one and round what is round others.
fn around_all(rect: Rect, others: Option<Rect>) -> Rect
    ensures { rectangle_of result ≡ around_all (rectangle_of rect) (option_map rectangle_of others) }
{
    match others {
        Some(others) => around(rect, others),
        None => rect,
    }
}

/// The least rectangle round these shapes and round what is round others.
fn grown(others: Option<Rect>, shapes: &[NetShape]) -> Option<Rect>
    ensures { (rest : List Rectangle) → option_map rectangle_of others ≡ box_round rest → option_map rectangle_of result ≡ box_round (rest ++ boxes_in (map shape_view shapes.now)) }
{
    let mut bounds = others;
    for shape in shapes {
        bounds = Some(around_all(shape.rect, bounds));
    }
    bounds
}

/// The least rectangle round shapes of which some went and others came, from that round all before: `None` where one of those that went
/// may have bounded it, so that the others are to be looked at.
pub(crate) fn bounds_after(
    old: Option<Rect>,
    gone: &[NetShape],
    come: &[NetShape],
) -> Option<Option<Rect>>
    ensures { IfSome result (λ new. BoxFollows (boxes_in (map shape_view gone.now)) (boxes_in (map shape_view come.now)) (option_map rectangle_of old) (option_map rectangle_of new)) }
{
    let Some(bounds) = old else {
        return Some(grown(None, come));
    };
    if !are_inside(bounds, gone) {
        return None;
    }
    Some(grown(Some(bounds), come))
}
