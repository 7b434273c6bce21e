//! The rectangles of a via of LEF, layer by layer (LEF/DEF 5.8 Language Reference, "Via").

ghost use Rattle.std.specs.Prelude.{◌≡◌};
ghost use Rattle.net_rules.specs.ViaRectangles.{shapes_on};
ghost use Rattle.wire_shapes.specs.RuleViews.{GivesShape};
ghost use Rattle.design_wires.specs.ViaRectsLeft.{layers_left};

use crate::scale::Scale;
use cell_library::numbers::MicronRect;
use cell_library::shapes::LayerShapes;
use std::alloc::{Allocator, Global};
use wire_shapes::LayerShape;

/// The rectangles that are left of a layer, and the layers after it.
#[derive(Clone, Copy, Drop)]
pub(crate) struct LayerRects<'a, 'l, A: Allocator = Global> {
    pub(crate) scale: Scale,
    pub(crate) layer: &'l [u8],
    pub(crate) rectangles: &'a [MicronRect],
    pub(crate) later: &'a [LayerShapes<'l, A>],
}

impl<'a, 'l, A: Allocator + Copy> LayerRects<'a, 'l, A> {
    /// The first rectangle that is left; at the end `None`.
    pub(crate) fn next(&mut self) -> Option<LayerShape<'l>>
        ensures { GivesShape (layers_left self.old) result (layers_left self.new) }
    {
        while self.rectangles.is_empty() {
            if self.later.is_empty() {
                return None;
            }
            let shapes = &self.later[0];
            self.later = &self.later[1..];
            self.layer = shapes.layer;
            self.rectangles = shapes.rectangles.as_slice();
        }
        let (rectangle, later) = self.rectangles.split_first()?;
        self.rectangles = later;
        let rect = rectangle.in_units(self.scale.per_micron());
        Some(LayerShape {
            layer: self.layer,
            rect,
        })
    }
}
