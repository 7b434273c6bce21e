//! The things that are on one layer.

ghost use Rattle.std.specs.Prelude.{◌≡◌, ◌++◌, IfOk, OnOk, [], filter, flat_map, map};
ghost use Rattle.connection_rules.specs.NetLines.{shapes_of_net, shapes_of_part};
ghost use Rattle.net_lists.specs.NetViews.{net_view, net_with};
ghost use Rattle.net_lists.specs.PartCuts.{part_view};
ghost use Rattle.net_touches.specs.Barriers.{barrier_view};
ghost use Rattle.net_touches.specs.ThingViews.{thing_view};
ghost use Rattle.net_touches.specs.Things.{all_things, barriers_on, is_on, shapes_on};

use crate::barrier::Barrier;
use crate::thing::Thing;
use design_model::identifier::LayerId;
use net_lists::{NetHead, NetList, NetView, PartView};
use std::alloc::{AllocError, Allocator};

/// Puts the shapes of a part that are on a layer behind other things.
fn push_part<'n, 't, A: Allocator>(
    layer: LayerId,
    head: &'n NetHead<'t>,
    part: &PartView<'n>,
    things: &mut Vec<Thing<'n, 't>, A>,
) -> Result<(), AllocError>
    ensures { OnOk result (map thing_view things.new.items ≡ map thing_view things.old.items ++ shapes_on layer.0 (shapes_of_part (net_with head.entry.now []) (part_view part.now))) }
{
    for shape in part.shapes {
        if shape.layer == layer {
            things.push(Thing::shape(shape, head, !part.is_pin))?;
        }
    }
    Ok(())
}

/// Puts the shapes of a net that are on a layer behind other things.
fn push_net<'n, 't, A: Allocator>(
    layer: LayerId,
    net: &NetView<'n, 't>,
    things: &mut Vec<Thing<'n, 't>, A>,
) -> Result<(), AllocError>
    ensures { OnOk result (map thing_view things.new.items ≡ map thing_view things.old.items ++ shapes_on layer.0 (shapes_of_net (net_view net.now))) }
{
    let mut left = net.part_views();
    while let Some(part) = left.next() {
        push_part(layer, net.head, &part, things)?;
    }
    Ok(())
}

/// Puts the shapes of nets that are on a layer behind other things.
fn push_nets<'n, 't, A: Allocator + Copy>(
    layer: LayerId,
    nets: &'n NetList<'t, A>,
    things: &mut Vec<Thing<'n, 't>, A>,
) -> Result<(), AllocError>
    ensures { OnOk result (map thing_view things.new.items ≡ map thing_view things.old.items ++ shapes_on layer.0 (flat_map shapes_of_net nets.entry.now)) }
{
    let mut left = nets.nets();
    while let Some(net) = left.next() {
        push_net(layer, &net, things)?;
    }
    Ok(())
}

/// Puts the barriers that are on a layer behind other things.
fn push_barriers<'n, 't, A: Allocator>(
    layer: LayerId,
    barriers: &'n [Barrier],
    things: &mut Vec<Thing<'n, 't>, A>,
) -> Result<(), AllocError>
    ensures { OnOk result (map thing_view things.new.items ≡ map thing_view things.old.items ++ barriers_on layer.0 (map barrier_view barriers.now)) }
{
    for barrier in barriers {
        if barrier.layer == layer {
            things.push(Thing::Barrier(barrier))?;
        }
    }
    Ok(())
}

/// The shapes of nets that are on a layer, and behind them the barriers there.
pub(crate) fn things_on<'n, 't, A: Allocator + Copy>(
    alloc: A,
    layer: LayerId,
    nets: &'n NetList<'t, A>,
    barriers: &'n [Barrier],
) -> Result<Vec<Thing<'n, 't>, A>, AllocError>
    ensures { IfOk result (λ v. map thing_view v.items ≡ filter (is_on layer.0) (all_things (flat_map shapes_of_net nets.now) (map barrier_view barriers.now))) }
{
    let mut things = Vec::new(alloc);
    push_nets(layer, nets, &mut things)?;
    push_barriers(layer, barriers, &mut things)?;
    Ok(things)
}
