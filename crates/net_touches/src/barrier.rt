//! Where routing is blocked.

use design_model::geometry::Rect;
use design_model::identifier::LayerId;

/// A rectangle where routing on a layer is blocked, in database units; it may spare nets of power.
#[derive(Clone, Copy)]
pub struct Barrier {
    pub layer: LayerId,
    pub rect: Rect,
    pub spares_power: bool,
}
