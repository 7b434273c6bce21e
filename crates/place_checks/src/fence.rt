//! A fence of a design.

ghost use Rattle.std.specs.Prelude.{◌≡◌, map};
ghost use Rattle.design_model.specs.Views.{rectangle_of};
ghost use Rattle.place_checks.specs.Hulls.{hull_of};

use design_model::geometry::Rect;
use design_model::sequence::Sequence;
use std::alloc::{Allocator, Global};

/// A fence: its name, its rectangles in database units, and the least rectangle round them.
#[derive(Drop)]
pub struct Fence<'t, A: Allocator = Global> {
    pub name: &'t [u8],
    pub rectangles: Sequence<Rect, A>,
    pub hull: Rect,
    pub ghost hull_is: { rectangle_of hull ≡ hull_of (map rectangle_of rectangles) },
}
