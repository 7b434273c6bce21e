//! How one more pin hangs together with the parts of a net, by those near it.

ghost use Rattle.std.specs.Prelude.{◌≡◌, ◌≤◌, ◌+◌, ◌-◌, ◌^◌, ◌∷◌, ◌++◌, [], IfOk, IsTrue, map, min, true};
ghost use Rattle.class_laws.specs.OneMore.{AreJoinedAt, IsInAClass, parts_at};
ghost use Rattle.kept_nets.specs.Joints.{HangsBy, is_known};
ghost use Rattle.kept_nets.specs.Kept.{AreShapesOf};
ghost use Rattle.kept_nets.specs.NearParts.{GrewBy, met_between, met_in_parts};
ghost use Rattle.kept_nets.specs.Parts.{part_view};

use crate::listing::{classes_at, classes_with};
use crate::looks::{Looks, touched_within};
use crate::near::further;
use crate::part::KeptPart;
use class_laws::{alone_is_a_class, few_tell};
use placed_shapes::PlacedShapes;
use std::alloc::{AllocError, Allocator};

/// How one more pin hangs together with other parts.
#[derive(Clone, Copy)]
pub(crate) enum Joint {
    /// It is a class by itself.
    Alone,
    /// It is in a class of others that has a pin.
    Within,
    /// It isn't known.
    Open,
}

impl Joint {
    /// Whether it is known.
    pub(crate) fn is_known(self) -> bool
        ensures { result ≡ is_known self }
    {
        !matches!(self, Joint::Open)
    }
}

/// How often parts are looked at, each time some more of them.
const ROUNDS: usize = 6;

/// How many shapes the parts at some places have.
fn count_at<A: Allocator + Copy>(parts: &[KeptPart<A>], places: &[usize]) -> u64 {
    let mut count: u64 = 0;
    for place in places {
        if let Some(part) = parts.get(*place) {
            count = count.saturating_add(part.shapes.len() as u64);
        }
    }
    count
}

/// Whether a pin is in a class, with another pin, of the parts at some places; no where too many shapes would be compared.
fn is_within<A: Allocator + Copy>(
    alloc: A,
    part: &KeptPart<A>,
    parts: &[KeptPart<A>],
    places: &[usize],
    looks: &mut Looks,
) -> Result<bool, AllocError>
    ensures within { IfOk result (λ yes. IsTrue yes → IsInAClass (part_view part.now) (parts_at (map part_view parts.now) places.now)) }
    ensures least { IfOk result (λ yes. IsTrue yes → min (looks.old.tests + met_in_parts (part_view part.now ∷ parts_at (map part_view parts.now) places.now)) (2 ^ 64 - 1) ≤ looks.new.tests) }
    ensures more { looks.old.tests ≤ looks.new.tests }
{
    let count = count_at(parts, places).saturating_add(part.shapes.len() as u64);
    if !looks.have_room(count.saturating_mul(count).saturating_mul(2)) {
        return Ok(false);
    }
    let without = classes_at(alloc, parts, places)?;
    let with = classes_with(alloc, part, parts, places)?;
    looks.add(without.tests);
    looks.add(with.tests);
    let without = without.classes.counts;
    let with = with.classes.counts;
    Ok(with.holding == without.holding && with.bare == without.bare)
}

/// These places and more behind them.
fn with_more<A: Allocator + Copy>(
    alloc: A,
    places: &[usize],
    more: Vec<usize, A>,
) -> Result<Vec<usize, A>, AllocError>
    ensures { IfOk result (λ v. v.items ≡ places.now ++ more.items) }
{
    let mut more = more;
    let mut all = Vec::from_slice(alloc, places)?;
    all.append(&mut more)?;
    Ok(all)
}

/// How a pin hangs together with parts, of which those are at some places that it touches: by these, and then by more and more that touch
/// them.
fn joint_by<A: Allocator + Copy>(
    alloc: A,
    part: &KeptPart<A>,
    parts: &[KeptPart<A>],
    shapes: &PlacedShapes<A>,
    near: &[usize],
    looks: &mut Looks,
) -> Result<Joint, AllocError>
    requires pin { part.now.is_pin ≡ true }
    requires near { AreJoinedAt (part_view part.now) (map part_view parts.now) near.now }
    ensures joint { IfOk result (λ j. HangsBy j (part_view part.now) (map part_view parts.now)) }
    ensures more { looks.old.tests ≤ looks.new.tests }
{
    few_tell();
    let mut more = Vec::new(alloc);
    for round in 0..ROUNDS {
        let places = with_more(alloc, near, more)?;
        if is_within(alloc, part, parts, &places, looks)? {
            return Ok(Joint::Within);
        }
        more = further(alloc, part, parts, shapes, &places, round, looks)?;
    }
    Ok(Joint::Open)
}

/// How a part hangs together with others, whose shapes these are, if it is a pin.
pub(crate) fn joint_of<A: Allocator + Copy>(
    alloc: A,
    part: &KeptPart<A>,
    parts: &[KeptPart<A>],
    shapes: &PlacedShapes<A>,
    looks: &mut Looks,
) -> Result<Joint, AllocError>
    requires { AreShapesOf (map part_view parts.now) shapes.now }
    ensures joint { IfOk result (λ j. HangsBy j (part_view part.now) (map part_view parts.now)) }
    ensures least { IfOk result (λ j. IsTrue (is_known j) → GrewBy (met_between (part_view part.now ∷ []) (map part_view parts.now)) looks.old.tests looks.new.tests) }
{
    alone_is_a_class();
    if !part.is_pin {
        return Ok(Joint::Open);
    }
    let Some(near) = touched_within(alloc, shapes, part.shapes.as_slice(), looks)? else {
        return Ok(Joint::Open);
    };
    if near.is_empty() {
        return Ok(Joint::Alone);
    }
    joint_by(alloc, part, parts, shapes, &near, looks)
}
