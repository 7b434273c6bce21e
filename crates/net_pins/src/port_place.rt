//! Where a port of a pin of the design is placed (LEF/DEF 5.8 Language Reference, "Pins").

ghost use Rattle.std.specs.Prelude.{◌≡◌};
ghost use Rattle.design_model.specs.Geometry.{IsNearRectangle};
ghost use Rattle.design_model.specs.Ranges.{IsPointWithin};
ghost use Rattle.design_model.specs.Views.{rectangle_of};
ghost use Rattle.wire_rules.specs.Placed.{turned_at};

use design_model::geometry::{Orient, Point, Rect};
use orient_geom::pin_rect;

/// How and where a port is placed.
#[derive(Clone, Copy)]
pub(crate) struct PortPlace {
    pub(crate) at: Point,
    pub(crate) orient: Orient,
    ghost near: { IsPointWithin 2147483647 at },
}

impl PortPlace {
    /// Where a rectangle lies that is given about the pin's origin.
    pub(crate) fn place(self, rect: Rect) -> Rect
        requires { IsNearRectangle (rectangle_of rect) }
        ensures { rectangle_of result ≡ turned_at self.orient self.at (rectangle_of rect) }
    {
        pin_rect(self.orient, self.at, rect)
    }
}
