//! Which parts are looked at next, near those that were looked at. It is a guess, which nothing hangs on but how soon it is found how a pin
//! hangs together with others.

ghost use Rattle.std.specs.Prelude.{◌≡◌, ◌<◌, ◌≤◌, ◌⊎◌};

use crate::looks::{Looks, touched_within};
use crate::part::KeptPart;
use design_model::geometry::{Point, Rect};
use net_lists::NetShape;
use orient_geom::{common, span};
use placed_shapes::PlacedShapes;
use shape_index::ShapeSet;
use std::alloc::{AllocError, Allocator};

/// Of so many parts no more are looked at.
const MANY: usize = 1000;

/// How many times its size a pin is looked round for others.
const WIDTHS: u64 = 16;

/// The place of a part if it is a pin, else another.
fn pin_or<A: Allocator + Copy>(
    parts: &[KeptPart<A>],
    place: usize,
    other: Option<usize>,
) -> Option<usize> {
    match parts.get(place) {
        Some(part) if part.is_pin => Some(place),
        _ => other,
    }
}

/// A rectangle with what stands round it.
fn with_margin(rect: Rect) -> Rect {
    let side = rect.x2.abs_diff(rect.x1).max(rect.y2.abs_diff(rect.y1));
    let margin = side.saturating_mul(WIDTHS);
    let lowest = Point {
        x: rect.x1.saturating_sub_unsigned(margin),
        y: rect.y1.saturating_sub_unsigned(margin),
    };
    let highest = Point {
        x: rect.x2.saturating_add_unsigned(margin),
        y: rect.y2.saturating_add_unsigned(margin),
    };
    span(lowest, highest)
}

/// Where pins are looked for first: round the first shape of a pin.
fn window_of<A: Allocator + Copy>(pin: &KeptPart<A>) -> Option<Rect> {
    let first = pin.shapes.as_slice().first()?;
    Some(with_margin(first.rect))
}

/// The place of a pin that touches a shape in a window, or anywhere, if there is one, else another.
fn touching_one<A: Allocator + Copy>(
    parts: &[KeptPart<A>],
    shapes: &PlacedShapes<A>,
    own: &NetShape,
    window: Option<Rect>,
    other: Option<usize>,
    looks: &mut Looks,
) -> Option<usize>
    ensures counted { (result ≡ other) ⊎ (looks.old.tests < looks.new.tests) }
    ensures more { looks.old.tests ≤ looks.new.tests }
{
    if !looks.have_room(0) {
        return other;
    }
    let seen = match window {
        Some(window) => common(window, own.rect),
        None => Some(own.rect),
    };
    let Some(rect) = seen else {
        return other;
    };
    let (pin, tests) = shapes
        .tiles()
        .for_met(own.layer, rect, other, |pin, _, met| {
            pin_or(parts, met.net, pin)
        });
    looks.add(tests);
    pin
}

/// The place of a pin that touches one of these shapes in a window, or anywhere, if there is one.
fn touching_pin<A: Allocator + Copy>(
    parts: &[KeptPart<A>],
    shapes: &PlacedShapes<A>,
    own: &[NetShape],
    window: Option<Rect>,
    looks: &mut Looks,
) -> Option<usize>
    ensures { looks.old.tests ≤ looks.new.tests }
{
    let mut pin = None;
    for shape in own {
        pin = touching_one(parts, shapes, shape, window, pin, looks);
    }
    pin
}

/// The places of pins that touch the parts at some places in a window, or anywhere, one for each where there is one.
fn touching_pins<A: Allocator + Copy>(
    alloc: A,
    parts: &[KeptPart<A>],
    shapes: &PlacedShapes<A>,
    places: &[usize],
    window: Option<Rect>,
    looks: &mut Looks,
) -> Result<Vec<usize, A>, AllocError>
    ensures { looks.old.tests ≤ looks.new.tests }
{
    let mut pins = Vec::new(alloc);
    for place in places {
        if let Some(part) = parts.get(*place) {
            let own = part.shapes.as_slice();
            if let Some(pin) = touching_pin(parts, shapes, own, window, looks) {
                pins.push(pin)?;
            }
        }
    }
    Ok(pins)
}

/// Puts the places of the parts that touch one behind others, unless these are many.
fn push_touching<A: Allocator + Copy>(
    alloc: A,
    parts: &[KeptPart<A>],
    shapes: &PlacedShapes<A>,
    place: usize,
    found: &mut Vec<usize, A>,
    looks: &mut Looks,
) -> Result<(), AllocError>
    ensures { looks.old.tests ≤ looks.new.tests }
{
    if found.len() >= MANY {
        return Ok(());
    }
    if let Some(part) = parts.get(place) {
        if let Some(more) = touched_within(alloc, shapes, part.shapes.as_slice(), looks)? {
            let mut more = more;
            found.append(&mut more)?;
        }
    }
    Ok(())
}

/// The places of the parts that touch those at some places, while these aren't many, each once.
fn all_touching<A: Allocator + Copy>(
    alloc: A,
    parts: &[KeptPart<A>],
    shapes: &PlacedShapes<A>,
    places: &[usize],
    looks: &mut Looks,
) -> Result<Vec<usize, A>, AllocError>
    ensures { looks.old.tests ≤ looks.new.tests }
{
    let mut found = Vec::new(alloc);
    for place in places {
        push_touching(alloc, parts, shapes, *place, &mut found, looks)?;
    }
    found.sort_unstable();
    found.dedup();
    Ok(found)
}

/// The places of parts to look at behind those at some places: a pin that touches each of them near this one, which a wire or a rail has
/// mostly; then one anywhere; and then all parts that touch them.
pub(crate) fn further<A: Allocator + Copy>(
    alloc: A,
    pin: &KeptPart<A>,
    parts: &[KeptPart<A>],
    shapes: &PlacedShapes<A>,
    places: &[usize],
    round: usize,
    looks: &mut Looks,
) -> Result<Vec<usize, A>, AllocError>
    ensures { looks.old.tests ≤ looks.new.tests }
{
    match round {
        0 => touching_pins(alloc, parts, shapes, places, window_of(pin), looks),
        1 => touching_pins(alloc, parts, shapes, places, None, looks),
        _ => all_touching(alloc, parts, shapes, places, looks),
    }
}
