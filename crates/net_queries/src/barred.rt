//! The lines of the shapes of nets with barriers.

ghost use Rattle.std.specs.Prelude.{◌≡◌, ◌++◌, [], OnOk, flat_map, map};
ghost use Rattle.connection_rules.specs.NetLines.{routeblock_of, shapes_of_net, shapes_of_part};
ghost use Rattle.design_model.specs.Families.{cross_lines};
ghost use Rattle.net_lists.specs.NetViews.{net_view, net_with};
ghost use Rattle.net_lists.specs.PartCuts.{part_view};
ghost use Rattle.net_touches.specs.Barriers.{barrier_view, name_at};

use crate::shorts::put_barred;
use net_lists::{NetHead, NetList, NetView, PartView};
use net_touches::{Barrier, ShapeOfNet};
use report_lines::Lines;
use std::alloc::{AllocError, Allocator};

/// Puts the lines of the shapes of a part of a net with barriers behind others.
pub fn put_barred_part<A: Allocator + Copy>(
    names: &[&[u8]],
    head: &NetHead<'_>,
    part: &PartView<'_>,
    barriers: &[Barrier],
    lines: &mut Lines<A>,
) -> Result<(), AllocError>
    ensures { OnOk result (lines.new ≡ lines.old ++ cross_lines (routeblock_of (name_at (map (λ w. w.now) names.now))) (shapes_of_part (net_with head.now []) (part_view part.now)) (map barrier_view barriers.now)) }
{
    for shape in part.shapes {
        let own = ShapeOfNet {
            shape,
            head,
            is_drawn: !part.is_pin,
        };
        put_barred(names, &own, barriers, lines)?;
    }
    Ok(())
}

/// Puts the lines of the shapes of a net with barriers behind others.
fn put_barred_net<A: Allocator + Copy>(
    names: &[&[u8]],
    net: &NetView<'_, '_>,
    barriers: &[Barrier],
    lines: &mut Lines<A>,
) -> Result<(), AllocError>
    ensures { OnOk result (lines.new ≡ lines.old ++ cross_lines (routeblock_of (name_at (map (λ w. w.now) names.now))) (shapes_of_net (net_view net.now)) (map barrier_view barriers.now)) }
{
    let mut left = net.part_views();
    while let Some(part) = left.next() {
        put_barred_part(names, net.head, &part, barriers, lines)?;
    }
    Ok(())
}

/// Puts the lines of the shapes of nets with barriers behind others, shape by shape.
pub fn put_barred_nets<A: Allocator + Copy>(
    names: &[&[u8]],
    nets: &NetList<'_, A>,
    barriers: &[Barrier],
    lines: &mut Lines<A>,
) -> Result<(), AllocError>
    ensures { OnOk result (lines.new ≡ lines.old ++ cross_lines (routeblock_of (name_at (map (λ w. w.now) names.now))) (flat_map shapes_of_net nets.now) (map barrier_view barriers.now)) }
{
    let mut left = nets.nets();
    while let Some(net) = left.next() {
        put_barred_net(names, &net, barriers, lines)?;
    }
    Ok(())
}
