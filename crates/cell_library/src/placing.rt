//! Where the rectangles of a macro go.

ghost use Rattle.std.specs.Prelude.{◌≡◌, ◌<◌, ◌≤◌, nat_abs};
ghost use Rattle.design_model.specs.Geometry.{IsNearRectangle, moved};
ghost use Rattle.design_model.specs.Views.{rectangle_of};
ghost use Rattle.lef_grammar.specs.Measures.{rectangle_in};
ghost use Rattle.cell_library.specs.Numbers.{rectangle_view};

use crate::numbers::MicronRect;
use design_model::geometry::{Point, Rect};

/// How many database units are in a micron, and where geometry is moved to.
#[derive(Clone, Copy)]
pub(crate) struct Placing {
    pub(crate) per_micron: u32,
    pub(crate) origin: Point,
    ghost some: { 0 < per_micron },
    ghost few: { per_micron ≤ 100000 },
    ghost near: { nat_abs origin.x ≤ 100000000000 },
    ghost low: { nat_abs origin.y ≤ 100000000000 },
}

impl Placing {
    /// A rectangle in database units, moved after that.
    pub(crate) fn place(self, rectangle: MicronRect) -> Rect
        ensures is { rectangle_of result ≡ moved self.origin.x self.origin.y (rectangle_in self.per_micron (rectangle_view rectangle)) }
        ensures near { IsNearRectangle (rectangle_of result) }
    {
        let rect = rectangle.in_units(self.per_micron);
        Rect {
            x1: rect.x1 + self.origin.x,
            y1: rect.y1 + self.origin.y,
            x2: rect.x2 + self.origin.x,
            y2: rect.y2 + self.origin.y,
        }
    }
}
