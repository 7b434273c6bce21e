//! How many shapes are compared while parts near some are looked at.

ghost use Rattle.std.specs.Prelude.{◌≡◌, ◌<◌, ◌≤◌, ◌+◌, ◌-◌, ◌^◌, ◌∷◌, [], IfOk, IfSome, IsTrue, flat_map, map, min, sum_by, true};
ghost use Rattle.line_laws.specs.Lines.{SameThings};
ghost use Rattle.net_lists.specs.PartCuts.{shape_view};
ghost use Rattle.placed_shapes.specs.Placed.{touched_by};
ghost use Rattle.shape_index.specs.Near.{met_shapes};
ghost use Rattle.kept_nets.specs.NearParts.{is_near_itself, near_one, near_themselves};
ghost use Rattle.kept_nets.specs.Parts.{part_view};

use crate::part::KeptPart;
use net_lists::NetShape;
use orient_geom::meets;
use placed_shapes::{PlacedShapes, TouchedPlaces};
use shape_index::met_is_near;
use std::alloc::{AllocError, Allocator};

/// Of a net of fewer shapes all parts are gone over at once.
const FEW: u64 = 256;

/// How many shapes were compared, and how many may be.
#[derive(Drop)]
pub(crate) struct Looks {
    pub(crate) tests: u64,
    pub(crate) most: u64,
}

impl Looks {
    /// So many more were compared.
    pub(crate) fn add(&mut self, tests: u64)
        ensures more { self.old.tests ≤ self.new.tests }
        ensures all { min (self.old.tests + tests) (2 ^ 64 - 1) ≤ self.new.tests }
        ensures most { self.new.most ≡ self.old.most }
    {
        self.tests = self.tests.saturating_add(tests);
    }

    /// Whether there is room for so many more, where half of those that may be compared are kept for the last look: how many one compares
    /// isn't known before it. Where few may be compared there is none: all parts are soon gone over then.
    pub(crate) fn have_room(&self, count: u64) -> bool
        ensures most { IsTrue result → self.now.tests ≤ self.now.most }
        ensures more { IsTrue result → self.now.tests < 2 ^ 64 - 1 }
    {
        self.most >= FEW && self.tests.saturating_add(count) < self.most / 2
    }
}

/// The places of parts with shapes that touch some of these, each as often as such a shape has it, unless too many shapes would be compared.
pub(crate) fn touched_within<A: Allocator + Copy>(
    alloc: A,
    shapes: &PlacedShapes<A>,
    own: &[NetShape],
    looks: &mut Looks,
) -> Result<Option<Vec<usize, A>>, AllocError>
    ensures places { IfOk result (λ found. IfSome found (λ v. SameThings v.items (flat_map (touched_by shapes.now) (map shape_view own.now)))) }
    ensures least { IfOk result (λ found. IfSome found (λ _. min (looks.old.tests + sum_by (λ s. met_shapes s (map (λ p. p.1) shapes.now)) (map shape_view own.now)) (2 ^ 64 - 1) ≤ looks.new.tests)) }
    ensures more { looks.old.tests ≤ looks.new.tests }
{
    let mut places = Vec::new(alloc);
    for shape in own {
        if !looks.have_room(0) {
            return Ok(None);
        }
        let one = [*shape];
        let TouchedPlaces {
            places: more,
            tests,
        } = shapes.touched_places(alloc, &one)?;
        looks.add(tests);
        let mut more = more;
        places.append(&mut more)?;
    }
    Ok(Some(places))
}

/// Whether a shape is surely near itself: it is where it meets itself.
fn is_sure(shape: &NetShape) -> bool
    ensures { IsTrue result → is_near_itself (shape_view shape.now) ≡ true }
{
    met_is_near();
    meets(shape.rect, shape.rect)
}

/// 1 for such a shape, and 0 for others.
fn one_if_sure(shape: &NetShape) -> u64
    ensures { result ≤ near_one (shape_view shape.now) }
{
    if is_sure(shape) { 1 } else { 0 }
}

/// How many shapes of a part are such ones.
pub(crate) fn sure_in<A: Allocator + Copy>(part: &KeptPart<A>) -> u64
    ensures { result ≤ near_themselves (part_view part.now ∷ []) }
{
    let own = part.shapes.as_slice();
    let mut count: u64 = 0;
    for shape in own {
        count = count.saturating_add(one_if_sure(shape));
    }
    count
}

/// How many shapes of parts are.
pub(crate) fn sure_in_all<A: Allocator + Copy>(parts: &[KeptPart<A>]) -> u64
    ensures { result ≤ near_themselves (map part_view parts.now) }
{
    let mut count: u64 = 0;
    for part in parts {
        count = count.saturating_add(sure_in(part));
    }
    count
}
