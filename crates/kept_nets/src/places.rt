//! The shapes of parts, each under its part's place, and the places of parts.

ghost use Rattle.std.specs.Prelude.{◌≡◌, ◌<◌, ◌≤◌, ◌∷◌, ◌++◌, ◌⊎◌, [], IfOk, IfSome, List, None, get_or, length, map};
ghost use Rattle.std.specs.List.{swap_remove};
ghost use Rattle.connection_rules.specs.NetParts.{Part};
ghost use Rattle.kept_nets.specs.Kept.{AreShapesOf};
ghost use Rattle.kept_nets.specs.Parts.{part_view};

use crate::looks::Looks;
use crate::part::KeptPart;
use placed_shapes::{PlacedShapes, push_placed};
use shape_index::ShapeSet;
use std::alloc::{AllocError, Allocator};

/// The shapes of parts, each under its part's place.
pub(crate) fn placed_parts<A: Allocator + Copy>(
    alloc: A,
    parts: &[KeptPart<A>],
) -> Result<PlacedShapes<A>, AllocError>
    ensures { IfOk result (AreShapesOf (map part_view parts.now)) }
{
    let mut shapes = Vec::new(alloc);
    for (place, part) in parts.iter().enumerate() {
        push_placed(place, part.shapes.as_slice(), &mut shapes)?;
    }
    PlacedShapes::of(alloc, &shapes)
}

/// These shapes with those of one more part behind the others.
pub(crate) fn with_last<A: Allocator + Copy>(
    shapes: PlacedShapes<A>,
    place: usize,
    part: &KeptPart<A>,
) -> Result<PlacedShapes<A>, AllocError>
    ensures { (ps : List Part) → length ps ≡ place → AreShapesOf ps shapes → IfOk result (AreShapesOf (ps ++ part_view part.now ∷ [])) }
{
    let mut shapes = shapes;
    shapes.insert(place, part.shapes.as_slice())?;
    Ok(shapes)
}

/// These shapes without those of a part, whose place the last one has taken; `None` where some weren't there.
pub(crate) fn without_part<A: Allocator + Copy>(
    shapes: PlacedShapes<A>,
    place: usize,
    gone: &KeptPart<A>,
    parts: &[KeptPart<A>],
) -> Result<Option<PlacedShapes<A>>, AllocError>
    ensures { (before : List (KeptPart A)) → place < length before → get_or before place gone.now ≡ gone.now → parts.now ≡ swap_remove before place gone.now
        → AreShapesOf (map part_view before) shapes → IfOk result (λ left. IfSome left (AreShapesOf (map part_view parts.now))) }
{
    let mut shapes = shapes;
    if !shapes.remove(place, gone.shapes.as_slice()) {
        return Ok(None);
    }
    let Some(moved) = parts.get(place) else {
        return Ok(Some(shapes));
    };
    if !shapes.remove(parts.len(), moved.shapes.as_slice()) {
        return Ok(None);
    }
    shapes.insert(place, moved.shapes.as_slice())?;
    Ok(Some(shapes))
}

/// A place if the same part as this one stands there, else another.
fn place_or<A: Allocator + Copy>(
    parts: &[KeptPart<A>],
    part: &KeptPart<A>,
    place: usize,
    other: Option<usize>,
) -> Option<usize>
    ensures { IfSome other (λ n. (n < length parts.now) × ((d : _) → part_view (get_or parts.now n d) ≡ part_view part.now))
        → IfSome result (λ n. (n < length parts.now) × ((d : _) → part_view (get_or parts.now n d) ≡ part_view part.now)) }
{
    match parts.get(place) {
        Some(there) if there.is_same(part) => Some(place),
        _ => other,
    }
}

/// Some place of a part by its first shape, if it has one and not too many shapes would be compared.
fn near_place<A: Allocator + Copy>(
    parts: &[KeptPart<A>],
    shapes: &PlacedShapes<A>,
    part: &KeptPart<A>,
    looks: &mut Looks,
) -> Option<usize>
    ensures counted { (result ≡ None) ⊎ (looks.old.tests < looks.new.tests) }
    ensures more { looks.old.tests ≤ looks.new.tests }
{
    if !looks.have_room(0) {
        return None;
    }
    let shape = part.shapes.first()?;
    let (found, tests) = shapes
        .tiles()
        .for_met(shape.layer, shape.rect, None, |found, _, met| {
            place_or(parts, part, met.net, found)
        });
    looks.add(tests);
    found
}

/// The last place of a part, if it is there.
fn last_place<A: Allocator + Copy>(parts: &[KeptPart<A>], part: &KeptPart<A>) -> Option<usize>
    ensures { IfSome result (λ n. (n < length parts.now) × ((d : _) → part_view (get_or parts.now n d) ≡ part_view part.now)) }
{
    for place in (0..parts.len()).rev() {
        if parts[place].is_same(part) {
            return Some(place);
        }
    }
    None
}

/// A place of a part, if it is there: by its shapes, or for one without shapes by looking at all from the last on.
pub(crate) fn place_of<A: Allocator + Copy>(
    parts: &[KeptPart<A>],
    shapes: Option<&PlacedShapes<A>>,
    part: &KeptPart<A>,
    looks: &mut Looks,
) -> Option<usize>
    ensures there { IfSome result (λ n. (n < length parts.now) × ((d : _) → part_view (get_or parts.now n d) ≡ part_view part.now)) }
    ensures more { looks.old.tests ≤ looks.new.tests }
{
    if let Some(shapes) = shapes {
        if let Some(place) = near_place(parts, shapes, part, looks) {
            return place_or(parts, part, place, None);
        }
    }
    last_place(parts, part)
}
