//! The shapes of a set that meet a rectangle, as a list.

ghost use Rattle.std.specs.Prelude.{IfOk};
ghost use Rattle.line_laws.specs.Lines.{SameThings};
ghost use Rattle.shape_index.specs.Shapes.{met_by};
ghost use Rattle.shape_index.specs.Pushing.{Pushes};

use crate::shape::{Shape, ShapeSet};
use design_model::geometry::Rect;
use design_model::identifier::{LayerId, ShapeId};
use std::alloc::{AllocError, Allocator};

/// The shapes on a layer that meet a rectangle, with their numbers, in an order that is left open.
pub fn met_of<S: ShapeSet, A: Allocator + Copy>(
    alloc: A,
    set: &S,
    layer: LayerId,
    rect: Rect,
) -> Result<Vec<(ShapeId, Shape), A>, AllocError>
    ensures { IfOk result (λ v. SameThings v.items (met_by layer rect (S.shapes set.now).entries)) }
{
    let (found, _) = set.for_met(layer, rect, Ok(Vec::new(alloc)), |found, id, shape| {
        push_met(found, id, shape)
    });
    found
}

/// Puts a shape behind those that were found.
fn push_met<A: Allocator + Copy>(
    found: Result<Vec<(ShapeId, Shape), A>, AllocError>,
    id: ShapeId,
    shape: &Shape,
) -> Result<Vec<(ShapeId, Shape), A>, AllocError>
    ensures { IfOk result (λ v. Pushes (λ u. u.items) found (id, shape.now) v.items) }
{
    let mut found = found?;
    found.push((id, *shape))?;
    Ok(found)
}
