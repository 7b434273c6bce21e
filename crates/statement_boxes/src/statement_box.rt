//! The box of a statement, and its shape.

ghost use Rattle.std.specs.Prelude.{◌≡◌};
ghost use Rattle.statement_boxes.specs.BoxShapes.{shape_of};

use design_model::geometry::Rect;
use design_model::identifier::{LayerId, StmtId};
use shape_index::Shape;

/// The layer of all shapes of boxes.
pub(crate) const LAYER: LayerId = LayerId(0);

/// The box of a statement, in database units.
#[derive(Clone, Copy, Debug, PartialEq, Eq)]
pub struct StatementBox {
    pub id: StmtId,
    pub rect: Rect,
}

/// The shape that stands for a box: its net is the statement's number.
pub(crate) fn shape_of(statement_box: &StatementBox) -> Shape
    ensures { result ≡ shape_of statement_box.now }
{
    Shape {
        layer: LAYER,
        rect: statement_box.rect,
        net: statement_box.id.0,
    }
}
