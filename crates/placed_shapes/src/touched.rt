//! The owners of shapes that touch others.

ghost use Rattle.std.specs.Prelude.{◌≡◌, ◌++◌, ◌+◌, ◌-◌, ◌≤◌, ◌^◌, IfOk, flat_map, map, min, sum_by};
ghost use Rattle.shape_index.specs.Near.{met_shapes, near_shapes};
ghost use Rattle.shape_index.specs.Pushing.{Pushes};
ghost use Rattle.line_laws.specs.Lines.{SameThings};
ghost use Rattle.net_lists.specs.PartCuts.{shape_view};
ghost use Rattle.placed_shapes.specs.Placed.{touched_by};

use crate::placed::PlacedShapes;
use net_lists::NetShape;
use shape_index::{Shape, ShapeSet};
use std::alloc::{AllocError, Allocator, Global};

/// The places of owners of shapes, and how many shapes were compared to find them.
#[derive(Drop)]
pub struct TouchedPlaces<A: Allocator = Global> {
    pub places: Vec<usize, A>,
    pub tests: u64,
}

/// Puts the place of a shape's owner behind others.
fn push_place<A: Allocator>(
    places: Result<Vec<usize, A>, AllocError>,
    met: &Shape,
) -> Result<Vec<usize, A>, AllocError>
    ensures { IfOk result (λ v. Pushes (λ u. u.items) places met.now.net v.items) }
{
    let mut places = places?;
    places.push(met.net)?;
    Ok(places)
}

impl<A: Allocator + Copy> PlacedShapes<A> {
    /// Puts the places of the owners of shapes that touch one behind others, and says how many shapes were compared for them.
    fn push_touched(
        &self,
        shape: &NetShape,
        places: Vec<usize, A>,
    ) -> Result<TouchedPlaces<A>, AllocError>
        ensures places { IfOk result (λ t. SameThings t.places.items (places.items ++ touched_by self.now (shape_view shape.now))) }
        ensures tests { IfOk result (λ t. t.tests ≤ near_shapes (shape_view shape.now) (map (λ p. p.1) self.now)) }
        ensures least { IfOk result (λ t. met_shapes (shape_view shape.now) (map (λ p. p.1) self.now) ≤ t.tests) }
    {
        let (found, tests) = self
            .tiles()
            .for_met(shape.layer, shape.rect, Ok(places), |places, _, met| {
                push_place(places, met)
            });
        let places = found?;
        Ok(TouchedPlaces { places, tests })
    }

    /// The places of the owners of shapes that touch some of these, in an order that is left open, and how many pairs of shapes were
    /// compared for them: those that touch at least, up to 2^64 - 1. A place may stand several times.
    pub fn touched_places(
        &self,
        alloc: A,
        shapes: &[NetShape],
    ) -> Result<TouchedPlaces<A>, AllocError>
        ensures places { IfOk result (λ t. SameThings t.places.items (flat_map (touched_by self.now) (map shape_view shapes.now))) }
        ensures tests { IfOk result (λ t. t.tests ≤ sum_by (λ s. near_shapes s (map (λ p. p.1) self.now)) (map shape_view shapes.now)) }
        ensures least { IfOk result (λ t. min (sum_by (λ s. met_shapes s (map (λ p. p.1) self.now)) (map shape_view shapes.now)) (2 ^ 64 - 1) ≤ t.tests) }
    {
        let mut places = Vec::new(alloc);
        let mut tests: u64 = 0;
        for shape in shapes {
            let touched = self.push_touched(shape, places)?;
            places = touched.places;
            tests = tests.saturating_add(touched.tests);
        }
        Ok(TouchedPlaces { places, tests })
    }

    /// The same places alone.
    pub fn touched(&self, alloc: A, shapes: &[NetShape]) -> Result<Vec<usize, A>, AllocError>
        ensures { IfOk result (λ v. SameThings v.items (flat_map (touched_by self.now) (map shape_view shapes.now))) }
    {
        let found = self.touched_places(alloc, shapes)?;
        Ok(found.places)
    }
}
