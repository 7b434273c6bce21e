//! The classes of a net's parts.

ghost use Rattle.std.specs.Prelude.{◌≡◌, IfOk, map};
ghost use Rattle.connection_rules.specs.PartClasses.{part_labels, pin_marks, with_pins, without_pins};
ghost use Rattle.net_lists.specs.NetViews.{net_view};
ghost use Rattle.net_classes.specs.PartShapes.{joined_at, joined_by};

use crate::part_shapes::{PartShape, numbered, part_shapes};
use net_lists::NetView;
use part_classes::{Classes, Counts};
use shape_pairs::for_meeting_pairs;
use std::alloc::{AllocError, Allocator};

/// Joins the parts of two shapes, if these lie on one layer.
fn join_parts<A: Allocator>(classes: &mut Classes<A>, first: &PartShape, second: &PartShape)
    ensures { classes.new ≡ joined_by first.now second.now classes.old }
{
    let count = classes.len();
    if first.layer == second.layer && first.part < count && second.part < count {
        classes.join(first.part, second.part);
    }
}

/// The same, of two shapes by their places.
fn join_at<A: Allocator>(
    mut classes: Classes<A>,
    shapes: &[PartShape],
    a: usize,
    b: usize,
) -> Classes<A>
    ensures { result ≡ joined_at shapes.now a b classes }
{
    if let Some(first) = shapes.get(a) {
        if let Some(second) = shapes.get(b) {
            join_parts(&mut classes, first, second);
        }
    }
    classes
}

/// The parts of a net, of which those are joined whose shapes touch.
fn joined_parts<A: Allocator + Copy>(
    alloc: A,
    net: &NetView<'_, '_>,
) -> Result<Classes<A>, AllocError>
    ensures { IfOk result (λ c. c ≡ part_labels (net_view net.now).parts) }
{
    let shapes = part_shapes(alloc, net)?;
    let items = numbered(alloc, &shapes)?;
    let alone = Classes::new(alloc, net.parts.len())?;
    for_meeting_pairs(alloc, &items, alone, |classes, a, b| {
        join_at(classes, &shapes, a, b)
    })
}

/// Which parts of a net are pins.
fn pin_marks<A: Allocator>(alloc: A, net: &NetView<'_, '_>) -> Result<Vec<bool, A>, AllocError>
    ensures { IfOk result (λ v. v.items ≡ pin_marks (net_view net.now).parts) }
{
    net.parts.iter().map(|part| part.is_pin).collect(alloc)
}

/// How many classes hold a pin and how many hold none.
pub fn classes_of<A: Allocator + Copy>(
    alloc: A,
    net: &NetView<'_, '_>,
) -> Result<Counts, AllocError>
    ensures holding { IfOk result (λ c. c.holding ≡ with_pins (net_view net.now).parts) }
    ensures bare { IfOk result (λ c. c.bare ≡ without_pins (net_view net.now).parts) }
{
    let mut classes = joined_parts(alloc, net)?;
    let marks = pin_marks(alloc, net)?;
    classes.counts(&marks)
}
