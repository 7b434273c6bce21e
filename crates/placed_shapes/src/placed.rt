//! Shapes under the places of their owners.

ghost use Rattle.std.specs.Prelude.{◌≡◌, ◌++◌, ◌∷◌, ℕ, IfOk, IsFalse, IsTrue, OnErr, OnOk, map, take};
ghost use Rattle.line_laws.specs.Lines.{SameThings};
ghost use Rattle.net_lists.specs.PartCuts.{shape_view};
ghost use Rattle.placed_shapes.specs.Placed.{at_place, placed_shape, placed_shapes, stored};

use net_lists::NetShape;
use shape_index::{Shape, ShapeSet, TiledShapes};
use std::alloc::{AllocError, Allocator, Global};
use std::marker::Model;

/// Shapes under the places of their owners, searched by tiles.
#[derive(Drop)]
pub struct PlacedShapes<A: Allocator = Global> {
    // The net of each is its owner's place.
    tiles: TiledShapes<A>,
}

impl<A: Allocator> Model for PlacedShapes<A> {
    ghost use Rattle.std.specs.Prelude.{List, ℕ};
    ghost use Rattle.lef_grammar.specs.Measures.{Shape as TheShape};
    ghost use Rattle.placed_shapes.specs.Placed.{placed_shapes};

    ghost Value = { List (ℕ × TheShape) };

    ghost view = { λ s. placed_shapes s.tiles.entries };
}

/// A shape under the place of its owner.
fn stored(place: usize, shape: &NetShape) -> Shape
    ensures { result ≡ stored place shape.now }
{
    Shape {
        layer: shape.layer,
        rect: shape.rect,
        net: place,
    }
}

/// Puts shapes of one owner behind others.
pub fn push_placed<A: Allocator>(
    place: usize,
    shapes: &[NetShape],
    pushed: &mut Vec<Shape, A>,
) -> Result<(), AllocError>
    ensures { OnOk result (pushed.new.items ≡ pushed.old.items ++ map (stored place) shapes.now) }
{
    for shape in shapes {
        pushed.push(stored(place, shape))?;
    }
    Ok(())
}

impl<A: Allocator + Copy> PlacedShapes<A> {
    /// A set of these shapes.
    pub fn of(alloc: A, shapes: &[Shape]) -> Result<PlacedShapes<A>, AllocError>
        ensures { IfOk result (λ s. SameThings s (map placed_shape shapes.now)) }
    {
        Ok(PlacedShapes {
            tiles: TiledShapes::of(alloc, shapes)?,
        })
    }

    /// The set, for a search.
    pub fn tiles(&self) -> &TiledShapes<A>
        ensures { placed_shapes result.now.entries ≡ self.now }
    {
        &self.tiles
    }

    /// Takes a shape out, once. Answers whether there was one.
    fn remove_one(&mut self, place: usize, shape: &NetShape) -> bool
        ensures removed { IsTrue result → SameThings self.old ((place, shape_view shape.now) ∷ self.new) }
        ensures absent { IsFalse result → self.new ≡ self.old }
    {
        let Some(id) = self.tiles.find(stored(place, shape)) else {
            return false;
        };
        self.tiles.remove(id);
        true
    }

    /// Takes shapes of one owner out, each once, up to the first that isn't there, and says whether all were.
    pub fn remove(&mut self, place: usize, shapes: &[NetShape]) -> bool
        ensures removed { IsTrue result → SameThings self.old (at_place place shapes.now ++ self.new) }
        ensures part { (count : ℕ) × SameThings self.old (at_place place (take count shapes.now) ++ self.new) }
    {
        for shape in shapes {
            if !self.remove_one(place, shape) {
                return false;
            }
        }
        true
    }

    /// Puts a shape in.
    fn insert_one(&mut self, place: usize, shape: &NetShape) -> Result<(), AllocError>
        ensures put { OnOk result (SameThings self.new ((place, shape_view shape.now) ∷ self.old)) }
        ensures absent { OnErr result (self.new ≡ self.old) }
    {
        self.tiles.reserve(1)?;
        self.tiles.insert_reserved(stored(place, shape));
        Ok(())
    }

    /// Puts shapes of one owner in.
    pub fn insert(&mut self, place: usize, shapes: &[NetShape]) -> Result<(), AllocError>
        ensures put { OnOk result (SameThings self.new (at_place place shapes.now ++ self.old)) }
        ensures part { (count : ℕ) × SameThings self.new (at_place place (take count shapes.now) ++ self.old) }
    {
        for shape in shapes {
            self.insert_one(place, shape)?;
        }
        Ok(())
    }
}
