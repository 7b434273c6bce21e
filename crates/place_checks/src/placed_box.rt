//! A component that takes part in the place checks.

ghost use Rattle.design_model.specs.Geometry.{IsNearRectangle};
ghost use Rattle.design_model.specs.Views.{rectangle_of};

use design_model::geometry::{Orient, Rect};

/// A component that takes part: its name, its box in database units and how it is turned, the class and the sites of its
/// macro, and the region that it names itself.
#[derive(Clone, Copy)]
pub struct PlacedBox<'t> {
    pub name: &'t [u8],
    pub rect: Rect,
    pub orient: Orient,
    pub class: Option<&'t [u8]>,
    pub sites: &'t [&'t [u8]],
    pub region: Option<&'t [u8]>,
    pub ghost near: { IsNearRectangle (rectangle_of rect) },
}
