//! The shapes of a via that a table keeps, one at a time.

ghost use Rattle.std.specs.Prelude.{◌≡◌, []};
ghost use Rattle.wire_shapes.specs.RuleViews.{GivesShape};
ghost use Rattle.design_wires.specs.KnownShapes.{known_left, near_view};

use crate::near_shape::NearShape;
use wire_shapes::{LayerShape, LayerShapes};

/// Gives the shapes of a via. It takes no memory.
#[derive(Clone, Copy, Drop)]
pub struct KnownShapes<'v, 'a> {
    pub(crate) left: &'v [NearShape<'a>],
}

impl<'v, 'a> KnownShapes<'v, 'a> {
    /// Those of a via that isn't known, which has none.
    pub(crate) fn none() -> KnownShapes<'v, 'a>
        ensures { known_left result ≡ [] }
    {
        KnownShapes { left: &[] }
    }

    /// The first shape that is left; at the end `None`.
    fn next_shape(&mut self) -> Option<LayerShape<'a>>
        ensures { GivesShape (known_left self.old) result (known_left self.new) }
    {
        if self.left.is_empty() {
            return None;
        }
        let first = &self.left[0];
        self.left = &self.left[1..];
        Some(first.shape)
    }
}

impl<'n, 'v: 'n, 'a: 'v> LayerShapes<'n> for KnownShapes<'v, 'a> {
    ghost use Rattle.design_wires.specs.KnownShapes.{known_left};

    ghost shapes = { known_left };

    fn next(&mut self) -> Option<LayerShape<'n>>
        ensures { GivesShape (known_left self.old) result (known_left self.new) }
    {
        self.next_shape()
    }
}
