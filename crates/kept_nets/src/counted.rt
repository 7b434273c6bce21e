//! How the parts of a net hang together, with a count of the comparisons by which it is found.

ghost use Rattle.std.specs.Prelude.{◌≡◌, ◌≤◌, ◌-◌, ◌^◌, IfOk, map, min};
ghost use Rattle.connection_rules.specs.NetLines.{is_drawn};
ghost use Rattle.connection_rules.specs.PartClasses.{with_pins, without_pins};
ghost use Rattle.line_laws.specs.Lines.{SameThings};
ghost use Rattle.net_lists.specs.NetViews.{net_view};
ghost use Rattle.net_queries.specs.Held.{shapes_from};
ghost use Rattle.placed_shapes.specs.Placed.{placed_shape};
ghost use Rattle.kept_nets.specs.Kept.{HangAs};
ghost use Rattle.kept_nets.specs.NearParts.{met_in_parts, near_in_parts};

use net_classes::NetClasses;
use net_lists::NetView;
use net_queries::{NetState, pieces_of};
use part_classes::Counts;
use placed_shapes::{PlacedShapes, push_placed};
use shape_index::Shape;
use std::alloc::{AllocError, Allocator};

/// How parts hang together, and how many pairs of their shapes were compared to find it.
#[derive(Clone, Copy)]
pub(crate) struct CountedClasses {
    pub(crate) classes: NetClasses,
    pub(crate) tests: u64,
}

/// The shapes of a net, each under the number of its part.
fn numbered_shapes<A: Allocator + Copy>(
    alloc: A,
    net: &NetView<'_, '_>,
) -> Result<Vec<Shape, A>, AllocError>
    ensures { IfOk result (λ v. map placed_shape v.items ≡ shapes_from 0 (net_view net.now).parts) }
{
    let mut shapes = Vec::with_capacity(alloc, net.shapes.len())?;
    let mut left = net.part_views();
    let mut number = 0;
    while let Some(part) = left.next() {
        push_placed(number, part.shapes, &mut shapes)?;
        number += 1;
    }
    Ok(shapes)
}

/// The same, searched by tiles.
fn placed_net<A: Allocator + Copy>(
    alloc: A,
    net: &NetView<'_, '_>,
) -> Result<PlacedShapes<A>, AllocError>
    ensures { IfOk result (λ s. SameThings s (shapes_from 0 (net_view net.now).parts)) }
{
    let shapes = numbered_shapes(alloc, net)?;
    PlacedShapes::of(alloc, &shapes)
}

/// How the parts of a net hang together, and how many pairs of its shapes were compared to find it: those that meet, and others that are
/// near each other by tiles.
fn state_of<A: Allocator + Copy>(alloc: A, net: &NetView<'_, '_>) -> Result<NetState, AllocError>
    ensures classes { IfOk result (λ s. s.classes ≡ with_pins (net_view net.now).parts) }
    ensures floating { IfOk result (λ s. s.floating ≡ without_pins (net_view net.now).parts) }
    ensures tests { IfOk result (λ s. s.tests ≤ near_in_parts (net_view net.now).parts) }
    ensures least { IfOk result (λ s. min (met_in_parts (net_view net.now).parts) (2 ^ 64 - 1) ≤ s.tests) }
{
    let placed = placed_net(alloc, net)?;
    pieces_of(alloc, 0, net, placed.tiles())
}

/// Whether a net has wires or vias.
fn has_wires(net: &NetView<'_, '_>) -> bool
    ensures { result ≡ is_drawn (net_view net.now).parts }
{
    net.parts.iter().any(|part| !part.is_pin)
}

/// The same as its classes.
pub(crate) fn classes_of_net<A: Allocator + Copy>(
    alloc: A,
    net: &NetView<'_, '_>,
) -> Result<CountedClasses, AllocError>
    ensures classes { IfOk result (λ c. HangAs (net_view net.now).parts c.classes) }
    ensures tests { IfOk result (λ c. c.tests ≤ near_in_parts (net_view net.now).parts) }
    ensures least { IfOk result (λ c. min (met_in_parts (net_view net.now).parts) (2 ^ 64 - 1) ≤ c.tests) }
{
    let state = state_of(alloc, net)?;
    let classes = NetClasses {
        counts: Counts {
            holding: state.classes,
            bare: state.floating,
        },
        is_drawn: has_wires(net),
    };
    Ok(CountedClasses {
        classes,
        tests: state.tests,
    })
}
