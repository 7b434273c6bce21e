//! A set of shapes that is searched by tiles.

ghost use Rattle.std.specs.Prelude.{◌≡◌, [], All, IfNone, IfOk, IfSome, Some, map};
ghost use Rattle.slab.specs.Slab.{entries};
ghost use Rattle.line_laws.specs.Lines.{SameThings};
ghost use Rattle.shape_index.specs.Shapes.{AreSame, at, numbered};

use crate::gaps::{make_room, put_in, spread, take_out, with_gaps};
use crate::shape::{Shape, ShapeSet};
use crate::tile::key_of;
use crate::tile_order::{find_same, first_from, order_of, search};
use design_model::geometry::Rect;
use design_model::identifier::{LayerId, ShapeId};
use slab::Slab;
use std::alloc::{AllocError, Allocator, Global};
use std::marker::Model;

/// A set of shapes that is searched by tiles. A shape's size is the least power of two that isn't below its sides, and its
/// tile that of its lower left corner among the tiles of that size. A search compares shapes whose tile is one of those that
/// the rectangle meets, or one lower in x or in y; a shape is looked up among those of its own tile. A shape is put in and
/// taken out by moving the few numbers between its place and the nearest gap.
#[derive(Drop)]
pub struct TiledShapes<A: Allocator = Global> {
    shapes: Slab<Shape, A>,
    // The numbers of the shapes in the order of their tiles, with gaps.
    order: Vec<ShapeId, A>,
}

impl<A: Allocator> Model for TiledShapes<A> {
    ghost use Rattle.std.specs.Prelude.{◌-◌, min, vec_capacity};
    ghost use Rattle.slab.specs.Slab.{entries, slab_len};
    ghost use Rattle.shape_index.specs.Shapes.{Shapes, numbered};
    ghost use Rattle.shape_index.specs.TileOrder.{IsOrderOf};

    ghost Value = { Shapes };

    ghost view = { λ s. record { entries = numbered (entries s.shapes); spare = min (s.shapes.capacity - slab_len s.shapes) (vec_capacity s.order - slab_len s.shapes) } };

    ghost invariant = { λ s. IsOrderOf s.shapes s.order.items };
}

impl<A: Allocator + Copy> TiledShapes<A> {
    /// A set with no shapes and no room.
    pub fn new(alloc: A) -> Self
        ensures { result ≡ record { entries = []; spare = 0 } }
    {
        TiledShapes {
            shapes: Slab::new(alloc),
            order: Vec::new(alloc),
        }
    }

    /// A set of these shapes, made at once: their order is sorted once, while each `insert_reserved` looks for its place.
    pub fn of(alloc: A, shapes: &[Shape]) -> Result<Self, AllocError>
        ensures { IfOk result (λ s. SameThings (map (λ e. e.1) s.entries) shapes.now) }
    {
        let shapes = slab_of(alloc, shapes)?;
        let sorted = order_of(alloc, &shapes)?;
        let order = spread(alloc, &sorted, with_gaps(sorted.len()))?;
        Ok(TiledShapes { shapes, order })
    }

    /// The number of a shape that is the same as this one, if the set has some.
    pub fn find(&self, shape: Shape) -> Option<ShapeId>
        ensures found { IfSome result (λ id. (s : _) × (at id self.now.entries ≡ Some s) × AreSame s shape) }
        ensures absent { IfNone result (All (λ e. ¬ AreSame e.1 shape) self.now.entries) }
    {
        find_same(&self.shapes, &self.order, &shape)
    }
}

/// A slab of these shapes.
fn slab_of<A: Allocator + Copy>(alloc: A, shapes: &[Shape]) -> Result<Slab<Shape, A>, AllocError>
    ensures { IfOk result (λ s. SameThings (map (λ e. e.1) (numbered (entries s))) shapes.now) }
{
    let mut slab = Slab::with_capacity(alloc, shapes.len())?;
    for shape in shapes {
        slab.insert_reserved(*shape);
    }
    Ok(slab)
}

impl<A: Allocator + Copy> ShapeSet for TiledShapes<A> {
    ghost use Rattle.shape_index.specs.Tiles.{near_count};

    ghost shapes = { λ s. s };

    ghost most = { λ s layer rect. near_count layer rect s.entries };

    fn reserve(&mut self, count: usize) -> Result<(), AllocError> {
        let numbers = self.shapes.len().checked_add(count).ok_or(AllocError)?;
        self.shapes.reserve(count)?;
        make_room(&mut self.order, numbers)
    }

    fn insert_reserved(&mut self, shape: Shape) -> ShapeId {
        let key = key_of(ShapeId(self.shapes.vacant_key()), &shape);
        let place = first_from(&self.shapes, &self.order, 0, &key);
        let id = ShapeId(self.shapes.insert_reserved(shape));
        put_in(&mut self.order, place, id);
        id
    }

    fn remove(&mut self, id: ShapeId) -> Option<Shape> {
        let shape = self.shapes.get(id.0).copied()?;
        let place = first_from(&self.shapes, &self.order, 0, &key_of(id, &shape));
        take_out(&mut self.order, place);
        self.shapes.try_remove(id.0)
    }

    fn get(&self, id: ShapeId) -> Option<Shape> {
        self.shapes.get(id.0).copied()
    }

    fn for_met<B, F: Fn(B, ShapeId, &Shape) -> B>(
        &self,
        layer: LayerId,
        rect: Rect,
        acc: B,
        f: F,
    ) -> (B, u64) {
        search(&self.shapes, &self.order, layer, rect, acc, f)
    }
}
