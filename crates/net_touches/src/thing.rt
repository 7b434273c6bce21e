//! Shapes of nets and barriers as things of one kind.

ghost use Rattle.std.specs.Prelude.{◌≡◌, ◌++◌, OnOk, map, true, false};
ghost use Rattle.design_model.specs.Views.{rectangle_of};
ghost use Rattle.net_touches.specs.Barriers.{name_at};
ghost use Rattle.net_touches.specs.ShapeViews.{net_shape, shape_view};
ghost use Rattle.net_touches.specs.ThingViews.{thing_view};
ghost use Rattle.net_touches.specs.Things.{box_of, lines_of_two, shape_of_net};

use crate::barrier::Barrier;
use crate::line::{put_routeblock, put_short};
use crate::shape::ShapeOfNet;
use design_model::geometry::Rect;
use net_lists::{NetHead, NetShape};
use report_lines::Lines;
use std::alloc::{AllocError, Allocator};

/// A shape of a net, drawn or a pin's, with the head of its net, or a barrier.
#[derive(Clone, Copy)]
pub(crate) enum Thing<'n, 't: 'n> {
    Drawn(&'n NetShape, &'n NetHead<'t>),
    Pin(&'n NetShape, &'n NetHead<'t>),
    Barrier(&'n Barrier),
}

impl<'n, 't> Thing<'n, 't> {
    /// A shape of a net.
    pub(crate) fn shape(shape: &'n NetShape, head: &'n NetHead<'t>, is_drawn: bool) -> Thing<'n, 't>
        ensures { thing_view result ≡ shape_of_net (net_shape shape.entry.now head.entry.now is_drawn) }
    {
        if is_drawn {
            Thing::Drawn(shape, head)
        } else {
            Thing::Pin(shape, head)
        }
    }

    /// Its rectangle.
    pub(crate) fn rect(&self) -> Rect
        ensures { rectangle_of result ≡ box_of (thing_view self.now) }
    {
        match self {
            Thing::Drawn(shape, _) => shape.rect,
            Thing::Pin(shape, _) => shape.rect,
            Thing::Barrier(barrier) => barrier.rect,
        }
    }
}

/// A drawn shape of a net.
fn drawn<'n, 't>(shape: &'n NetShape, head: &'n NetHead<'t>) -> ShapeOfNet<'n, 't>
    ensures { shape_view result ≡ net_shape shape.entry.now head.entry.now true }
{
    ShapeOfNet {
        shape,
        head,
        is_drawn: true,
    }
}

/// A shape of a net's pin.
fn of_pin<'n, 't>(shape: &'n NetShape, head: &'n NetHead<'t>) -> ShapeOfNet<'n, 't>
    ensures { shape_view result ≡ net_shape shape.entry.now head.entry.now false }
{
    ShapeOfNet {
        shape,
        head,
        is_drawn: false,
    }
}

/// Puts the line of a shape and a thing that stands behind it.
fn put_behind_shape<A: Allocator + Copy>(
    shape: &ShapeOfNet<'_, '_>,
    behind: &Thing<'_, '_>,
    names: &[&[u8]],
    lines: &mut Lines<A>,
) -> Result<(), AllocError>
    ensures { OnOk result (lines.new ≡ lines.old ++ lines_of_two (name_at (map (λ w. w.now) names.now)) (shape_of_net (shape_view shape.now)) (thing_view behind.now)) }
{
    match behind {
        Thing::Drawn(other, head) => put_short(shape, &drawn(other, head), names, lines),
        Thing::Pin(other, head) => put_short(shape, &of_pin(other, head), names, lines),
        Thing::Barrier(barrier) => put_routeblock(shape, barrier, names, lines),
    }
}

/// Puts the line of two things, of which the second stands behind the first.
pub(crate) fn put_line<A: Allocator + Copy>(
    first: &Thing<'_, '_>,
    second: &Thing<'_, '_>,
    names: &[&[u8]],
    lines: &mut Lines<A>,
) -> Result<(), AllocError>
    ensures { OnOk result (lines.new ≡ lines.old ++ lines_of_two (name_at (map (λ w. w.now) names.now)) (thing_view first.now) (thing_view second.now)) }
{
    match first {
        Thing::Drawn(shape, head) => put_behind_shape(&drawn(shape, head), second, names, lines),
        Thing::Pin(shape, head) => put_behind_shape(&of_pin(shape, head), second, names, lines),
        // Nothing but barriers stands behind a barrier.
        Thing::Barrier(_) => Ok(()),
    }
}
