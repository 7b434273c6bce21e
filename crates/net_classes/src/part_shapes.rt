//! The shapes of a net's parts in one list.

ghost use Rattle.std.specs.Prelude.{◌≡◌, ◌++◌, IfOk, OnOk, map};
ghost use Rattle.net_lists.specs.NetViews.{net_view};
ghost use Rattle.net_lists.specs.PartCuts.{shape_view};
ghost use Rattle.net_classes.specs.PartShapes.{numbered_from, of_part, shapes_from, with_part};

use design_model::geometry::Rect;
use design_model::identifier::LayerId;
use net_lists::{NetShape, NetView};
use shape_pairs::Numbered;
use std::alloc::{AllocError, Allocator};

/// A shape of a part, with the part's number.
#[derive(Clone, Copy)]
pub(crate) struct PartShape {
    pub layer: LayerId,
    pub rect: Rect,
    pub part: usize,
}

/// Puts the shapes of a part behind others.
fn push_shapes<A: Allocator>(
    part: usize,
    shapes: &[NetShape],
    found: &mut Vec<PartShape, A>,
) -> Result<(), AllocError>
    ensures { OnOk result (map of_part found.new.items ≡ map of_part found.old.items ++ with_part part (map shape_view shapes.now)) }
{
    for shape in shapes {
        found.push(PartShape {
            layer: shape.layer,
            rect: shape.rect,
            part,
        })?;
    }
    Ok(())
}

/// The shapes of a net, part by part, each with its part's number.
pub(crate) fn part_shapes<A: Allocator>(
    alloc: A,
    net: &NetView<'_, '_>,
) -> Result<Vec<PartShape, A>, AllocError>
    ensures { IfOk result (λ v. map of_part v.items ≡ shapes_from 0 (net_view net.now).parts) }
{
    let mut found = Vec::with_capacity(alloc, net.shapes.len())?;
    let mut left = net.part_views();
    let mut number = 0;
    while let Some(part) = left.next() {
        push_shapes(number, part.shapes, &mut found)?;
        number += 1;
    }
    Ok(found)
}

/// The rectangles of shapes, each under its place.
pub(crate) fn numbered<A: Allocator>(
    alloc: A,
    shapes: &[PartShape],
) -> Result<Vec<Numbered, A>, AllocError>
    ensures { IfOk result (λ v. v.items ≡ numbered_from 0 shapes.now) }
{
    let mut items = Vec::with_capacity(alloc, shapes.len())?;
    for (id, shape) in shapes.iter().enumerate() {
        items.push(Numbered {
            rect: shape.rect,
            id,
        })?;
    }
    Ok(items)
}
