//! What a path goes on with, as plain values.

ghost use Rattle.std.specs.Prelude.{◌≡◌, List};
ghost use Rattle.wire_shapes.specs.ItemViews.{GivesItem};

use design_model::geometry::{Orient, Point, Rect};

/// A via at the last point of a path: how it is turned, and how often it stands in x and in y, so far apart.
#[derive(Clone, Copy)]
pub struct ViaUse<'t> {
    pub name: &'t [u8],
    pub orient: Orient,
    pub columns: u32,
    pub rows: u32,
    /// In database units.
    pub step: Point,
}

/// What a path goes on with after its first point, in database units (LEF/DEF 5.8 Language Reference, "Regular Wiring
/// Statement" and "Special Wiring Statement").
#[derive(Clone, Copy)]
pub enum PathItem<'t> {
    /// A point, and how far the wire goes past it where that is said.
    ToPoint(Point, Option<i64>),
    /// A point to which no wire goes.
    JumpTo(Point),
    /// A rectangle, given from the path's last point on.
    Patch(Rect),
    UseVia(ViaUse<'t>),
}

/// The items that are left of a path, which are given in their order.
pub trait PathItems<'t>: Sized + Drop {
    ghost use Rattle.wire_rules.specs.Paths.{PathItem as TheItem};

    ghost items: { Self → List TheItem };

    /// The first item that is left; at the end `None`.
    fn next(&mut self) -> Option<PathItem<'t>>
        ensures { GivesItem (items self.old) result (items self.new) };
}
