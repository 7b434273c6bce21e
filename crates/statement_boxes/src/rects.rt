//! Boxes that meet a rectangle.

ghost use Rattle.std.specs.Prelude.{◌≤◌, IfOk, map};
ghost use Rattle.line_laws.specs.Lines.{SameThings};
ghost use Rattle.design_model.specs.Views.{rectangle_of};
ghost use Rattle.shape_index.specs.Pushing.{Pushes};
ghost use Rattle.statement_boxes.specs.Boxes.{met_by, met_count, near_count};

use crate::boxes::StatementBoxes;
use crate::statement_box::LAYER;
use design_model::geometry::Rect;
use shape_index::{Shape, ShapeSet};
use std::alloc::{AllocError, Allocator, Global};

/// The boxes that meet a rectangle, without their statements.
#[derive(Drop)]
pub struct MetRects<A: Allocator = Global> {
    /// They, in an order that is left open.
    pub rects: Vec<Rect, A>,
    /// How many boxes were compared: these at least.
    pub compared: u64,
}

impl<A: Allocator + Copy> StatementBoxes<A> {
    /// The boxes that meet a rectangle, without their statements.
    pub fn met_rects(&self, alloc: A, rect: Rect) -> Result<MetRects<A>, AllocError>
        ensures those { IfOk result (λ m. SameThings (map rectangle_of m.rects.items) (map (λ b. b.1) (met_by (rectangle_of rect) self.now))) }
        ensures compared { IfOk result (λ m. m.compared ≤ near_count (rectangle_of rect) self.now) }
        ensures least { IfOk result (λ m. met_count (rectangle_of rect) self.now ≤ m.compared) }
    {
        let (rects, compared) = self.tiles.for_met(
            LAYER,
            rect,
            Ok(Vec::new(alloc)),
            |rects, _, shape| push_rect(rects, shape),
        );
        Ok(MetRects {
            rects: rects?,
            compared,
        })
    }
}

/// Puts a shape's rectangle behind those that were found.
fn push_rect<A: Allocator + Copy>(
    rects: Result<Vec<Rect, A>, AllocError>,
    shape: &Shape,
) -> Result<Vec<Rect, A>, AllocError>
    ensures { IfOk result (λ v. Pushes (λ u. u.items) rects shape.now.rect v.items) }
{
    let mut rects = rects?;
    rects.push(shape.rect)?;
    Ok(rects)
}
