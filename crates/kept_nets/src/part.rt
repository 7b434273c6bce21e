//! Parts of nets with shapes of their own.

ghost use Rattle.std.specs.Prelude.{◌≡◌, ◌++◌, IfOk, IsTrue, OnOk, map};
ghost use Rattle.design_model.specs.Views.{rectangle_of};
ghost use Rattle.net_lists.specs.NetViews.{net_view};
ghost use Rattle.net_lists.specs.PartCuts.{part_view as lent_view, shape_view};
ghost use Rattle.net_laws.specs.StarNets.{pins_in};
ghost use Rattle.kept_nets.specs.Parts.{part_view, shapes_in};

use design_model::geometry::Rect;
use net_lists::{NetShape, NetView, PartView};
use std::alloc::{AllocError, Allocator, Global};

/// A part of a net: whether it is a pin, and its shapes.
#[derive(Drop)]
pub struct KeptPart<A: Allocator = Global> {
    pub is_pin: bool,
    pub shapes: Vec<NetShape, A>,
}

impl<A: Allocator + Copy> KeptPart<A> {
    /// A copy of a part.
    pub(crate) fn of(alloc: A, part: PartView<'_>) -> Result<KeptPart<A>, AllocError>
        ensures { IfOk result (λ p. part_view p ≡ lent_view part.entry) }
    {
        Ok(KeptPart {
            is_pin: part.is_pin,
            shapes: Vec::from_slice(alloc, part.shapes)?,
        })
    }

    /// Whether this is a part with the same shapes in the same order.
    pub(crate) fn is_same(&self, other: &KeptPart<A>) -> bool
        ensures { IsTrue result → part_view self.now ≡ part_view other.now }
    {
        self.is_pin == other.is_pin && are_same(self.shapes.as_slice(), other.shapes.as_slice())
    }
}

/// Whether two rectangles are one.
fn is_rectangle(a: &Rect, b: &Rect) -> bool
    ensures { IsTrue result → rectangle_of a.now ≡ rectangle_of b.now }
{
    a.x1 == b.x1 && a.y1 == b.y1 && a.x2 == b.x2 && a.y2 == b.y2
}

/// Whether two shapes are one.
pub fn is_same_shape(a: &NetShape, b: &NetShape) -> bool
    ensures { IsTrue result → shape_view a.now ≡ shape_view b.now }
{
    a.layer.0 == b.layer.0 && is_rectangle(&a.rect, &b.rect)
}

/// Whether two lists have the same shapes in the same order.
fn are_same(a: &[NetShape], b: &[NetShape]) -> bool
    ensures { IsTrue result → map shape_view a.now ≡ map shape_view b.now }
{
    if a.len() != b.len() {
        return false;
    }
    for place in 0..a.len() {
        if !is_same_shape(&a[place], &b[place]) {
            return false;
        }
    }
    true
}

/// The pins of a net.
pub fn pins_of<A: Allocator + Copy>(
    alloc: A,
    net: &NetView<'_, '_>,
) -> Result<Vec<KeptPart<A>, A>, AllocError>
    ensures { IfOk result (λ v. map part_view v.items ≡ pins_in (net_view net.now).parts) }
{
    let mut pins = Vec::new(alloc);
    let mut left = net.part_views();
    while let Some(part) = left.next() {
        if part.is_pin {
            pins.push(KeptPart::of(alloc, part)?)?;
        }
    }
    Ok(pins)
}

/// Puts shapes behind others.
fn push_shapes<A: Allocator>(
    shapes: &[NetShape],
    found: &mut Vec<NetShape, A>,
) -> Result<(), AllocError>
    ensures { OnOk result (map shape_view found.new.items ≡ map shape_view found.old.items ++ map shape_view shapes.now) }
{
    for shape in shapes {
        found.push(*shape)?;
    }
    Ok(())
}

/// The shapes of parts, one after the other.
pub fn shapes_of<A: Allocator + Copy>(
    alloc: A,
    parts: &[KeptPart<A>],
) -> Result<Vec<NetShape, A>, AllocError>
    ensures { IfOk result (λ v. map shape_view v.items ≡ shapes_in (map part_view parts.now)) }
{
    let mut shapes = Vec::new(alloc);
    for part in parts {
        push_shapes(part.shapes.as_slice(), &mut shapes)?;
    }
    Ok(shapes)
}
