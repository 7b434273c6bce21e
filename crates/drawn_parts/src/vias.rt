//! Vias of special nets that stand by themselves (LEF/DEF 5.8 Language Reference, "Special Nets").

ghost use Rattle.std.specs.Prelude.{◌≡◌, OnOk};
ghost use Rattle.design_model.specs.Ranges.{IsBoxWithin, IsPointWithin};
ghost use Rattle.design_model.specs.Views.{rectangle_of};
ghost use Rattle.wire_rules.specs.Paths.{one_via, shape_at};
ghost use Rattle.entry_rules.specs.WireItems.{net_via, turned_as};
ghost use Rattle.net_rules.specs.ViaRectangles.{via_shapes};
ghost use Rattle.connection_rules.specs.NetParts.{vias_at};
ghost use Rattle.design_rules.specs.Boxes.{scale};
ghost use Rattle.wire_shapes.specs.RuleViews.{shape_reach, shape_view};
ghost use Rattle.wire_parts.specs.PathViews.{wire_via_view};
ghost use Rattle.wire_parts.specs.SpecialNetViews.{placed_via_view};
ghost use Rattle.drawn_parts.specs.Drawing.{IsReady, drawing, put_piece, put_pieces};

use crate::drawing::{PartWalk, put_shape};
use design_model::geometry::{Orient, Point};
use design_wires::wires::DesignWires;
use net_lists::NetList;
use orient_geom::pin_rect;
use std::alloc::{AllocError, Allocator};
use wire_parts::paths::WireVia;
use wire_parts::special_nets::PlacedVia;
use wire_shapes::{LayerShape, LayerShapes};

/// How a via is turned; where nothing is said it isn't.
fn turned_as(orient: Option<Orient>) -> Orient
    ensures { result ≡ turned_as orient }
{
    match orient {
        Some(orient) => orient,
        None => Orient::N,
    }
}

/// Puts a shape of a via that stands at a point, where it may be the first of the via.
fn put_via_shape<A: Allocator + Copy>(
    via: &WireVia<'_>,
    at: Point,
    is_first: bool,
    shape: LayerShape<'_>,
    walk: &mut PartWalk<'_, '_, A>,
    nets: &mut NetList<'_, A>,
) -> Result<(), AllocError>
    requires at { IsPointWithin 2147483647 at }
    requires near { IsBoxWithin shape_reach (rectangle_of shape.rect) }
    requires ready { IsReady walk.old nets.old }
    ensures ok { OnOk result (drawing walk.new nets.new ≡ put_piece walk.old.layers.layers (shape_at (net_via (wire_via_view via.now)) at is_first (shape_view shape.entry)) (drawing walk.old nets.old)) }
    ensures ready { OnOk result (IsReady walk.new nets.new) }
    ensures same { OnOk result (walk.new.layers ≡ walk.old.layers) }
{
    if is_first {
        walk.is_begun = false;
    }
    let rect = pin_rect(turned_as(via.orient), at, shape.rect);
    let placed = LayerShape {
        layer: shape.layer,
        rect,
    };
    put_shape(&placed, walk, nets)
}

/// Puts a via at one point, with all its shapes.
fn put_via<'a, 'l: 'a, 'r: 'a, 't: 'a, A: Allocator + Copy>(
    wires: &DesignWires<'a, 'l, 'r, 't, A>,
    via: &WireVia<'_>,
    at: Point,
    walk: &mut PartWalk<'_, '_, A>,
    nets: &mut NetList<'_, A>,
) -> Result<(), AllocError>
    requires at { IsPointWithin 2147483647 at }
    requires ready { IsReady walk.old nets.old }
    ensures ok { OnOk result (drawing walk.new nets.new ≡ put_pieces walk.old.layers.layers (one_via (via_shapes wires.now.library wires.now.design (scale wires.now.design) (wire_via_view via.now).name) (net_via (wire_via_view via.now)) at) (drawing walk.old nets.old)) }
    ensures ready { OnOk result (IsReady walk.new nets.new) }
    ensures same { OnOk result (walk.new.layers ≡ walk.old.layers) }
{
    let mut left = wires.via_shapes(via.name.bytes);
    let mut is_first = true;
    while let Some(shape) = left.next() {
        put_via_shape(via, at, is_first, shape, walk, nets)?;
        is_first = false;
    }
    Ok(())
}

/// Puts a via at each of its points.
#[tactic(auto, using(crate::proofs::PartLemmas::pieces_append))]
pub(crate) fn put_vias<'a, 'l: 'a, 'r: 'a, 't: 'a, A: Allocator + Copy>(
    wires: &DesignWires<'a, 'l, 'r, 't, A>,
    vias: &PlacedVia<'_>,
    walk: &mut PartWalk<'_, '_, A>,
    nets: &mut NetList<'_, A>,
) -> Result<(), AllocError>
    requires { IsReady walk.old nets.old }
    ensures ok { OnOk result (drawing walk.new nets.new ≡ put_pieces walk.old.layers.layers (vias_at wires.now.library wires.now.design (scale wires.now.design) (placed_via_view vias.now)) (drawing walk.old nets.old)) }
    ensures ready { OnOk result (IsReady walk.new nets.new) }
    ensures same { OnOk result (walk.new.layers ≡ walk.old.layers) }
{
    let mut at = vias.first;
    put_via(wires, &vias.via, at.place(), walk, nets)?;
    let mut left = vias.others.again();
    while let Some(later) = left.next() {
        at = later.at.after(at);
        put_via(wires, &vias.via, at.place(), walk, nets)?;
    }
    Ok(())
}
