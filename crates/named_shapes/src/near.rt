//! The nets that have shapes which touch others.

ghost use Rattle.std.specs.Prelude.{◌≡◌, ◌==◌, ◌≤◌, ◌-◌, ◌^◌, ℕ, Bool, false, true, not, IfOk, IfSome, OnOk, map, min, sum_by};
ghost use Rattle.std.specs.List.{list_any};
ghost use Rattle.net_lists.specs.PartCuts.{shape_view};
ghost use Rattle.shape_index.specs.Near.{met_shapes, near_shapes};
ghost use Rattle.named_shapes.specs.Touching.{AreTouching, is_known};

use crate::names::NetNames;
use crate::shapes::NamedShapes;
use name_keys::OwnName;
use net_lists::NetShape;
use placed_shapes::TouchedPlaces;
use std::alloc::{AllocError, Allocator, Global};

/// The names of nets, and how many pairs of shapes were compared to find them.
#[derive(Drop)]
pub struct TouchingNets<A: Allocator = Global> {
    pub names: Vec<OwnName<A>, A>,
    pub tests: u64,
}

/// Whether a place is one of these.
fn is_one_of(places: &[usize], place: usize) -> bool
    ensures { result ≡ list_any (λ p. p == place) places.now }
{
    for other in places {
        if *other == place {
            return true;
        }
    }
    false
}

/// Puts a place behind others, unless it is one of them.
fn add_place<A: Allocator + Copy>(
    places: &mut Vec<usize, A>,
    place: usize,
) -> Result<(), AllocError>
    ensures { (test : ℕ → Bool) → OnOk result (list_any test places.new.items ≡ false → (list_any test places.old.items ≡ false) × (test place ≡ false)) }
{
    if !is_one_of(places, place) {
        places.push(place)?;
    }
    Ok(())
}

/// Each of these places once, unless they are more than so many.
fn each_once<A: Allocator + Copy>(
    alloc: A,
    places: &[usize],
    most: usize,
) -> Result<Option<Vec<usize, A>>, AllocError>
    ensures { IfOk result (λ found. IfSome found (λ v. (test : ℕ → Bool) → list_any test v.items ≡ false → list_any test places.now ≡ false)) }
{
    let mut once = Vec::new(alloc);
    for place in places {
        if once.len() > most {
            return Ok(None);
        }
        add_place(&mut once, *place)?;
    }
    Ok(Some(once))
}

/// Puts a copy of the name at a place behind others, if there is one.
fn add_name<A: Allocator + Copy>(
    alloc: A,
    names: &NetNames<A>,
    place: usize,
    found: &mut Vec<OwnName<A>, A>,
) -> Result<(), AllocError>
    ensures known { OnOk result (is_known names.now found.new.items place ≡ true) }
    ensures stay { OnOk result ((n : ℕ) → is_known names.now found.old.items n ≡ true → is_known names.now found.new.items n ≡ true) }
{
    if let Some(name) = names.name(place) {
        found.push(OwnName::copy_of(alloc, name)?)?;
    }
    Ok(())
}

/// Copies of the names at these places.
fn names_at<A: Allocator + Copy>(
    alloc: A,
    names: &NetNames<A>,
    places: &[usize],
) -> Result<Vec<OwnName<A>, A>, AllocError>
    ensures { IfOk result (λ v. list_any (λ n. not (is_known names.now v.items n)) places.now ≡ false) }
{
    let mut found = Vec::new(alloc);
    for place in places {
        add_name(alloc, names, *place, &mut found)?;
    }
    Ok(found)
}

impl<A: Allocator + Copy> NamedShapes<A> {
    /// The names of the nets that have shapes which touch some of these, unless they are more than so many, and how many pairs of shapes
    /// were compared to find them: those that touch at least, up to 2^64 - 1.
    pub fn nets_touching(
        &self,
        alloc: A,
        shapes: &[NetShape],
        most: usize,
    ) -> Result<Option<TouchingNets<A>>, AllocError>
        ensures all { IfOk result (λ found. IfSome found (λ t. AreTouching self.now (map shape_view shapes.now) t.names.items)) }
        ensures tests { IfOk result (λ found. IfSome found (λ t. t.tests ≤ sum_by (λ s. near_shapes s (map (λ n. n.shape) self.now)) (map shape_view shapes.now))) }
        ensures least { IfOk result (λ found. IfSome found (λ t. min (sum_by (λ s. met_shapes s (map (λ n. n.shape) self.now)) (map shape_view shapes.now)) (2 ^ 64 - 1) ≤ t.tests)) }
    {
        let TouchedPlaces { places, tests } = self.placed.touched_places(alloc, shapes)?;
        let Some(once) = each_once(alloc, &places, most)? else {
            return Ok(None);
        };
        let names = names_at(alloc, &self.names, &once)?;
        Ok(Some(TouchingNets { names, tests }))
    }
}
