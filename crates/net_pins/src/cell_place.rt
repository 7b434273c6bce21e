//! Where the shapes of a macro lie for a component that is placed (LEF/DEF 5.8 Language Reference, "Components").

ghost use Rattle.std.specs.Prelude.{◌≡◌};
ghost use Rattle.design_model.specs.Geometry.{moved, placed};
ghost use Rattle.design_model.specs.Ranges.{IsPointWithin};
ghost use Rattle.design_model.specs.Views.{rectangle_of};
ghost use Rattle.lef_grammar.specs.Measures.{rectangle_in};
ghost use Rattle.cell_library.specs.Numbers.{rectangle_view};
ghost use Rattle.design_wires.specs.Scales.{units_of};
ghost use Rattle.net_pins.specs.CellPlaces.{place_of_spot};

use crate::cell_frame::CellFrame;
use crate::last_rects::LastRects;
use cell_library::numbers::MicronRect;
use design_model::geometry::{Orient, Point, Rect};
use orient_geom::{move_by, place_rect};
use place_parts::standing::Spot;

/// The macro in database units, and how and where the component stands.
#[derive(Clone, Copy)]
pub(crate) struct CellPlace {
    pub(crate) frame: CellFrame,
    pub(crate) orient: Orient,
    pub(crate) at: Point,
    ghost place_near: { IsPointWithin 2147483648 at },
}

impl CellPlace {
    /// That of a macro for a component that stands there.
    #[inline(always)]
    pub(crate) fn of(frame: CellFrame, spot: Spot) -> CellPlace
        ensures frame { result.frame ≡ frame }
        ensures orient { result.orient ≡ spot.orient }
        ensures at { result.at ≡ place_of_spot spot }
    {
        CellPlace {
            frame,
            orient: spot.orient,
            at: Point {
                x: spot.x as i64,
                y: spot.y as i64,
            },
        }
    }

    /// Where a rectangle of the macro lies.
    #[inline(always)]
    pub(crate) fn place(self, rects: &mut LastRects, rectangle: MicronRect) -> Rect
        ensures { rectangle_of result ≡ placed self.orient (rectangle_of self.frame.boundary) self.at (moved self.frame.origin.x self.frame.origin.y (rectangle_in (units_of self.frame.scale) (rectangle_view rectangle))) }
    {
        let rect = rects.in_units(rectangle, self.frame.scale);
        let moved = move_by(rect, self.frame.origin);
        place_rect(self.orient, self.frame.boundary, self.at, moved)
    }
}
