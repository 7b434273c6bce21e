//! Shapes, and what every set of them does.

ghost use Rattle.std.specs.Prelude.{◌≡◌, ◌+◌, ◌≤◌, ◌<◌, ◌∷◌, ◌↔◌, IsTrue, ℕ, List, None, OnOk, IfSome, IfNone};
ghost use Rattle.std.specs.List.{FoldsTo};
ghost use Rattle.line_laws.specs.Lines.{SameThings};
ghost use Rattle.shape_index.specs.Shapes.{AreSame, Shapes, at, is_met, met_by, met_count};

use design_model::geometry::Rect;
use design_model::identifier::{LayerId, ShapeId};
use orient_geom::meets;
use std::alloc::AllocError;

/// A rectangle on a layer, in database units, with a number of the caller's.
#[derive(Clone, Copy, Debug, PartialEq, Eq)]
pub struct Shape {
    pub layer: LayerId,
    pub rect: Rect,
    pub net: usize,
}

/// Whether a shape is on a layer and meets a rectangle.
pub(crate) fn is_met(shape: &Shape, layer: LayerId, rect: Rect) -> bool
    ensures { (id : _) → result ≡ is_met layer rect (id, shape.now) }
{
    shape.layer == layer && meets(shape.rect, rect)
}

/// Whether two shapes are the same.
pub(crate) fn are_same(a: &Shape, b: &Shape) -> bool
    ensures { IsTrue result ↔ AreSame a.now b.now }
{
    a == b
}

/// A set of shapes under numbers that it picks, searched by layer and rectangle.
pub trait ShapeSet {
    ghost shapes: { Self → Shapes };

    ghost use Rattle.design_model.specs.declared.geometry.Rect.{Rect as Searched};
    ghost use Rattle.design_model.specs.declared.identifier.LayerId.{LayerId as Layer};

    // how many shapes a search may compare
    ghost most: { Self → Layer → Searched → ℕ };

    /// Makes room for so many more shapes.
    fn reserve(&mut self, count: usize) -> Result<(), AllocError>
        ensures room { OnOk result (count ≤ (shapes self.new).spare) }
        ensures same { (shapes self.new).entries ≡ (shapes self.old).entries }
        ensures kept { (shapes self.old).spare ≤ (shapes self.new).spare };

    /// Puts a shape in, under a number that was free. It takes no memory.
    fn insert_reserved(&mut self, shape: Shape) -> ShapeId
        requires { 0 < (shapes self.old).spare }
        ensures added { SameThings (shapes self.new).entries ((result, shape) ∷ (shapes self.old).entries) }
        ensures free { at result (shapes self.old).entries ≡ None }
        ensures spare { (shapes self.new).spare + 1 ≡ (shapes self.old).spare };

    /// Takes the shape under a number out, and leaves its room.
    fn remove(&mut self, id: ShapeId) -> Option<Shape>
        ensures value { result ≡ at id (shapes self.old).entries }
        ensures removed { IfSome result (λ s. SameThings (shapes self.old).entries ((id, s) ∷ (shapes self.new).entries)) }
        ensures room { IfSome result (λ s. (shapes self.new).spare ≡ (shapes self.old).spare + 1) }
        ensures absent { IfNone result (shapes self.new ≡ shapes self.old) };

    /// The shape under a number.
    fn get(&self, id: ShapeId) -> Option<Shape>
        ensures { result ≡ at id (shapes self.now).entries };

    /// Folds `f` over the shapes on a layer that meet a rectangle, each once, in an order that is left open. Also answers
    /// how many shapes it compared: those that meet it at least.
    fn for_met<B, F: Fn(B, ShapeId, &Shape) -> B>(
        &self,
        layer: LayerId,
        rect: Rect,
        acc: B,
        f: F,
    ) -> (B, u64)
        requires { F.IsAlwaysCallable f }
        ensures folded { (met : List _) × SameThings met (met_by layer rect (shapes self.now).entries)
            × FoldsTo (λ a e b. (shown : _) × (shown.now ≡ e.1) × F.post f a e.0 shown b) acc met result.0 }
        ensures compared { result.1 ≤ most self.now layer rect }
        ensures least { met_count layer rect (shapes self.now).entries ≤ result.1 };
}
