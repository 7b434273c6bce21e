//! A component in a sweep over many.

ghost use Rattle.std.specs.Prelude.{◌≡◌};
ghost use Rattle.place_checks.specs.Views.{bare, boxed_view, swept_view};

use crate::placed_box::PlacedBox;
use design_model::geometry::Rect;

/// What a sweep over many components knows of each: its name, and its box in database units.
#[derive(Clone, Copy)]
pub struct SweptBox<'t> {
    pub name: &'t [u8],
    pub rect: Rect,
}

impl<'t> PlacedBox<'t> {
    /// The component in a sweep.
    pub fn swept(&self) -> SweptBox<'t>
        ensures { swept_view result ≡ bare (boxed_view self.now) }
    {
        SweptBox {
            name: self.name,
            rect: self.rect,
        }
    }
}
