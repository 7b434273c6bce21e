//! A macro in database units (LEF/DEF 5.8 Language Reference, "Macro").

ghost use Rattle.std.specs.Prelude.{◌≡◌};
ghost use Rattle.design_model.specs.Geometry.{IsNearRectangle, spanned};
ghost use Rattle.design_model.specs.Ranges.{IsPointWithin};
ghost use Rattle.design_model.specs.Views.{rectangle_of};
ghost use Rattle.lef_grammar.specs.Measures.{point_or_0};
ghost use Rattle.cell_library.specs.CellViews.{cell_view};
ghost use Rattle.design_wires.specs.Scales.{units_of};
ghost use Rattle.net_pins.specs.CellPlaces.{origin};

use cell_library::macro_view::MacroView;
use design_model::geometry::{Point, Rect};
use design_wires::scale::Scale;
use orient_geom::span;
use std::alloc::Allocator;

/// How many database units a micron has, where a macro moves its geometry to, and its boundary with corners in order.
#[derive(Clone, Copy, Drop)]
pub(crate) struct CellFrame {
    pub(crate) scale: Scale,
    pub(crate) origin: Point,
    pub(crate) boundary: Rect,
    ghost origin_near: { IsPointWithin 100000000000 origin },
    ghost boundary_near: { IsNearRectangle (rectangle_of boundary) },
}

impl CellFrame {
    /// That of a macro.
    pub(crate) fn of<A: Allocator + Copy>(cell: MacroView<'_, '_, A>, scale: Scale) -> CellFrame
        ensures scale { result.scale ≡ scale }
        ensures origin { result.origin ≡ point_or_0 (units_of scale) (cell_view cell.entry).cell.origin }
        ensures boundary { rectangle_of result.boundary ≡ spanned origin (point_or_0 (units_of scale) (cell_view cell.entry).cell.size) }
    {
        CellFrame {
            scale,
            origin: cell.origin(scale.per_micron()),
            // (one without `SIZE` is a point)
            boundary: span(Point { x: 0, y: 0 }, cell.size(scale.per_micron())),
        }
    }
}
