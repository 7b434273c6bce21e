//! The least rectangle round shapes.

ghost use Rattle.std.specs.Prelude.{◌≡◌, map};
ghost use Rattle.std.specs.Option.{option_map};
ghost use Rattle.design_model.specs.Views.{rectangle_of};
ghost use Rattle.measure_rules.specs.NetBoxes.{around, around_all, box_round};
ghost use Rattle.reports.specs.MeasuredNets.{shape_box};

use design_model::geometry::Rect;
use measure_laws::boxes::boxes_grow;
use net_lists::NetShape;

/// The least rectangle round two.
fn around(a: Rect, b: Rect) -> Rect
    ensures { rectangle_of result ≡ around (rectangle_of a) (rectangle_of b) }
{
    Rect {
        x1: a.x1.min(b.x1),
        y1: a.y1.min(b.y1),
        x2: a.x2.max(b.x2),
        y2: a.y2.max(b.y2),
    }
}

/// The least rectangle round one and round what is round others.
fn around_all(rect: Rect, others: Option<Rect>) -> Rect
    ensures { rectangle_of result ≡ around_all (rectangle_of rect) (option_map rectangle_of others) }
{
    match others {
        Some(others) => around(rect, others),
        None => rect,
    }
}

/// The least rectangle round all shapes, if there is one.
pub(crate) fn box_round(shapes: &[NetShape]) -> Option<Rect>
    ensures { option_map rectangle_of result ≡ box_round (map shape_box shapes.now) }
{
    boxes_grow();
    let mut bounds = None;
    for shape in shapes {
        bounds = Some(around_all(shape.rect, bounds));
    }
    bounds
}
