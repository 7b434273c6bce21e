//! A set of shapes that is searched from end to end.

ghost use Rattle.std.specs.Prelude.{◌≡◌, []};
ghost use Rattle.shape_index.specs.Shapes.{slab_shapes};

use crate::shape::{Shape, ShapeSet, is_met};
use design_model::geometry::Rect;
use design_model::identifier::{LayerId, ShapeId};
use slab::Slab;
use std::alloc::{AllocError, Allocator, Global};

/// A set of shapes that is searched from end to end.
#[derive(Drop)]
pub struct PlainShapes<A: Allocator = Global> {
    shapes: Slab<Shape, A>,
}

impl<A: Allocator + Copy> PlainShapes<A> {
    /// A set with no shapes and no room.
    pub fn new(alloc: A) -> Self
        ensures { slab_shapes result.shapes ≡ record { entries = []; spare = 0 } }
    {
        PlainShapes {
            shapes: Slab::new(alloc),
        }
    }
}

impl<A: Allocator + Copy> ShapeSet for PlainShapes<A> {
    ghost use Rattle.std.specs.Prelude.{length};
    ghost use Rattle.slab.specs.Slab.{entries};
    ghost use Rattle.shape_index.specs.Shapes.{slab_shapes};

    ghost shapes = { λ s. slab_shapes s.shapes };

    ghost most = { λ s layer rect. length (entries s.shapes) };

    fn reserve(&mut self, count: usize) -> Result<(), AllocError> {
        self.shapes.reserve(count)
    }

    fn insert_reserved(&mut self, shape: Shape) -> ShapeId {
        ShapeId(self.shapes.insert_reserved(shape))
    }

    fn remove(&mut self, id: ShapeId) -> Option<Shape> {
        self.shapes.try_remove(id.0)
    }

    fn get(&self, id: ShapeId) -> Option<Shape> {
        self.shapes.get(id.0).copied()
    }

    fn for_met<B, F: Fn(B, ShapeId, &Shape) -> B>(
        &self,
        layer: LayerId,
        rect: Rect,
        acc: B,
        f: F,
    ) -> (B, u64) {
        let mut acc = acc;
        let mut compared = 0u64;
        for (id, shape) in self.shapes.iter() {
            compared = compared.saturating_add(1);
            if is_met(shape, layer, rect) {
                acc = f(acc, ShapeId(id), shape);
            }
        }
        (acc, compared)
    }
}
