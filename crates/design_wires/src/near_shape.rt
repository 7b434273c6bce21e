//! Shapes of vias, as a table keeps them.

ghost use Rattle.design_model.specs.Views.{rectangle_of};
ghost use Rattle.design_model.specs.Ranges.{IsBoxWithin};
ghost use Rattle.wire_shapes.specs.RuleViews.{shape_reach};

use wire_shapes::LayerShape;

/// A shape of a via about its origin.
#[derive(Clone, Copy, Drop)]
pub(crate) struct NearShape<'a> {
    pub(crate) shape: LayerShape<'a>,
    ghost near: { IsBoxWithin shape_reach (rectangle_of shape.rect) },
}
