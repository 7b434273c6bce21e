//! Parts as a net of a list.

ghost use Rattle.std.specs.Prelude.{◌≡◌, ◌<◌, ◌≤◌, ◌-◌, ◌^◌, ◌∷◌, ◌++◌, [], IfOk, List, OnOk, length, map, min};
ghost use Rattle.connection_rules.specs.NetParts.{Net};
ghost use Rattle.net_lists.specs.Building.{last_parts, with_parts, with_shapes};
ghost use Rattle.net_lists.specs.PartCuts.{shape_view};
ghost use Rattle.class_laws.specs.OneMore.{parts_at};
ghost use Rattle.kept_nets.specs.Kept.{HangAs};
ghost use Rattle.kept_nets.specs.NearParts.{met_in_parts, near_in_parts};
ghost use Rattle.kept_nets.specs.Parts.{part_view};

use crate::counted::{CountedClasses, classes_of_net};
use crate::part::KeptPart;
use net_classes::NetClasses;
use net_lists::{NetList, NetShape, building_a_net};
use part_classes::Counts;
use std::alloc::{AllocError, Allocator};

/// Puts shapes behind those of the last part of the last net of a list.
fn put_shapes<A: Allocator + Copy>(
    shapes: &[NetShape],
    nets: &mut NetList<'_, A>,
) -> Result<(), AllocError>
    requires net { 0 < length nets.old }
    requires part { 0 < length (last_parts nets.old) }
    ensures ok { OnOk result (nets.new ≡ with_shapes (map shape_view shapes.now) nets.old) }
    ensures net { OnOk result (0 < length nets.new) }
{
    for shape in shapes {
        nets.push_shape(shape.layer, shape.rect)?;
    }
    Ok(())
}

/// Puts a part behind those of the last net of a list.
fn put_part<A: Allocator + Copy>(
    part: &KeptPart<A>,
    nets: &mut NetList<'_, A>,
) -> Result<(), AllocError>
    requires { 0 < length nets.old }
    ensures ok { OnOk result (nets.new ≡ with_parts (part_view part.now ∷ []) nets.old) }
    ensures net { OnOk result (0 < length nets.new) }
{
    nets.begin_part(part.is_pin)?;
    put_shapes(part.shapes.as_slice(), nets)
}

/// Puts parts behind those of the last net of a list.
fn put_parts<A: Allocator + Copy>(
    parts: &[KeptPart<A>],
    nets: &mut NetList<'_, A>,
) -> Result<(), AllocError>
    requires { 0 < length nets.old }
    ensures ok { OnOk result (nets.new ≡ with_parts (map part_view parts.now) nets.old) }
{
    for part in parts {
        put_part(part, nets)?;
    }
    Ok(())
}

/// Puts the parts at some places behind those of the last net of a list.
fn put_parts_at<A: Allocator + Copy>(
    parts: &[KeptPart<A>],
    places: &[usize],
    nets: &mut NetList<'_, A>,
) -> Result<(), AllocError>
    requires { 0 < length nets.old }
    ensures ok { OnOk result (nets.new ≡ with_parts (parts_at (map part_view parts.now) places.now) nets.old) }
{
    for place in places {
        if let Some(part) = parts.get(*place) {
            put_part(part, nets)?;
        }
    }
    Ok(())
}

/// How the one net of a list hangs together.
fn classes_in<A: Allocator + Copy>(
    alloc: A,
    nets: &NetList<'_, A>,
) -> Result<CountedClasses, AllocError>
    ensures classes { (net : Net) → nets.now ≡ net ∷ [] → IfOk result (λ c. HangAs net.parts c.classes) }
    ensures tests { (net : Net) → nets.now ≡ net ∷ [] → IfOk result (λ c. c.tests ≤ near_in_parts net.parts) }
    ensures least { (net : Net) → nets.now ≡ net ∷ [] → IfOk result (λ c. min (met_in_parts net.parts) (2 ^ 64 - 1) ≤ c.tests) }
{
    let mut left = nets.nets();
    match left.next() {
        Some(net) => classes_of_net(alloc, &net),
        None => Ok(CountedClasses {
            classes: NetClasses {
                counts: Counts {
                    holding: 0,
                    bare: 0,
                },
                is_drawn: false,
            },
            tests: 0,
        }),
    }
}

/// How parts hang together.
pub(crate) fn classes_of_parts<A: Allocator + Copy>(
    alloc: A,
    parts: &[KeptPart<A>],
) -> Result<CountedClasses, AllocError>
    ensures classes { IfOk result (λ c. HangAs (map part_view parts.now) c.classes) }
    ensures tests { IfOk result (λ c. c.tests ≤ near_in_parts (map part_view parts.now)) }
    ensures least { IfOk result (λ c. min (met_in_parts (map part_view parts.now)) (2 ^ 64 - 1) ≤ c.tests) }
{
    building_a_net();
    let mut nets = NetList::new(alloc);
    nets.begin_net(b"", false)?;
    put_parts(parts, &mut nets)?;
    classes_in(alloc, &nets)
}

/// How the parts at some places hang together by themselves.
pub(crate) fn classes_at<A: Allocator + Copy>(
    alloc: A,
    parts: &[KeptPart<A>],
    places: &[usize],
) -> Result<CountedClasses, AllocError>
    ensures classes { IfOk result (λ c. HangAs (parts_at (map part_view parts.now) places.now) c.classes) }
    ensures least { IfOk result (λ c. min (met_in_parts (parts_at (map part_view parts.now) places.now)) (2 ^ 64 - 1) ≤ c.tests) }
{
    building_a_net();
    let mut nets = NetList::new(alloc);
    nets.begin_net(b"", false)?;
    put_parts_at(parts, places, &mut nets)?;
    classes_in(alloc, &nets)
}

/// The same with a part before them.
pub(crate) fn classes_with<A: Allocator + Copy>(
    alloc: A,
    part: &KeptPart<A>,
    parts: &[KeptPart<A>],
    places: &[usize],
) -> Result<CountedClasses, AllocError>
    ensures classes { IfOk result (λ c. HangAs (part_view part.now ∷ parts_at (map part_view parts.now) places.now) c.classes) }
    ensures least { IfOk result (λ c. min (met_in_parts (part_view part.now ∷ parts_at (map part_view parts.now) places.now)) (2 ^ 64 - 1) ≤ c.tests) }
{
    building_a_net();
    let mut nets = NetList::new(alloc);
    nets.begin_net(b"", false)?;
    put_part(part, &mut nets)?;
    put_parts_at(parts, places, &mut nets)?;
    classes_in(alloc, &nets)
}
