//! The lines of a design, layer by layer.

ghost use Rattle.std.specs.Prelude.{◌++◌, IfOk, filter, flat_map, map};
ghost use Rattle.design_model.specs.Families.{cross_lines, pair_lines};
ghost use Rattle.connection_rules.specs.NetLines.{routeblock_of, shapes_of_net, short_of};
ghost use Rattle.line_laws.specs.Lines.{SameLines};
ghost use Rattle.net_touches.specs.Barriers.{barrier_view, name_at};
ghost use Rattle.net_touches.specs.Things.{all_things, is_on, lines_of_two};

use crate::barrier::Barrier;
use crate::layer::put_pairs;
use crate::layers::layer_above;
use crate::things_on::things_on;
use design_model::identifier::LayerId;
use net_lists::NetList;
use report_lines::Lines;
use std::alloc::{AllocError, Allocator};

/// Puts the lines of all pairs of things on a layer behind others, in an order that is left open.
fn put_layer<'n, A: Allocator + Copy>(
    alloc: A,
    names: &[&[u8]],
    layer: LayerId,
    nets: &'n NetList<'_, A>,
    barriers: &'n [Barrier],
    lines: Lines<A>,
) -> Result<Lines<A>, AllocError>
    ensures { IfOk result (λ l. SameLines l (lines ++ pair_lines (lines_of_two (name_at (map (λ w. w.now) names.now))) (filter (is_on layer.0) (all_things (flat_map shapes_of_net nets.now) (map barrier_view barriers.now))))) }
{
    let here = things_on(alloc, layer, nets, barriers)?;
    put_pairs(alloc, names, &here, lines)
}

/// Puts the lines on shapes of two nets that touch, and on drawn shapes in barriers, behind others, in an order that is left open.
/// `names` are those of the layers, by their places.
pub fn touching_lines<A: Allocator + Copy>(
    alloc: A,
    names: &[&[u8]],
    nets: &NetList<'_, A>,
    barriers: &[Barrier],
    lines: Lines<A>,
) -> Result<Lines<A>, AllocError>
    ensures { let name_of = name_at (map (λ w. w.now) names.now) in let shapes = flat_map shapes_of_net nets.now in let barred = map barrier_view barriers.now in
        IfOk result (λ l. SameLines l (lines ++ (pair_lines (short_of name_of) shapes ++ cross_lines (routeblock_of name_of) shapes barred))) }
{
    let mut lines = lines;
    let mut done = None;
    // Things of two layers have no lines.
    while let Some(layer) = layer_above(done, nets.shapes(), barriers) {
        lines = put_layer(alloc, names, layer, &*nets, &*barriers, lines)?;
        done = Some(layer);
    }
    Ok(lines)
}
