//! The pieces of a path.

use crate::wiring_makings::LayerShape;
use design_model::geometry::Point;

/// What a path gives, in database units (LEF/DEF 5.8 Language Reference, "Regular Wiring Statement" and "Special Wiring
/// Statement").
#[derive(Clone, Copy)]
pub enum Piece<'t> {
    /// A wire between two points, and how far they are apart.
    Segment {
        shape: LayerShape<'t>,
        length: u64,
    },
    /// A wire between two points that is parallel to no axis: it has no shape and no length.
    Diagonal,
    /// A rectangle about a point of the path.
    Rectangle(LayerShape<'t>),
    /// One shape of a via that stands at a point.
    ViaShape {
        via: &'t [u8],
        at: Point,
        /// Whether it is the first shape of the via there.
        is_first: bool,
        shape: LayerShape<'t>,
    },
    /// A via of this name that isn't known.
    UnknownVia(&'t [u8]),
    /// A via of this name that doesn't join the path's layer to another.
    ViaOffLayer(&'t [u8]),
}
