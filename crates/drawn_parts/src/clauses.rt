//! The clauses of special nets that draw something by themselves (LEF/DEF 5.8 Language Reference, "Special Nets").

ghost use Rattle.std.specs.Prelude.{◌≡◌, OnOk, flat_map};
ghost use Rattle.design_model.specs.Views.{rectangle_of};
ghost use Rattle.net_rules.specs.ViaRectangles.{box_of};
ghost use Rattle.connection_rules.specs.NetParts.{clause_pieces};
ghost use Rattle.design_rules.specs.Boxes.{scale};
ghost use Rattle.def_parts.specs.PointViews.{corners_view};
ghost use Rattle.wire_parts.specs.SpecialNetViews.{special_clause_view, special_clauses_of};
ghost use Rattle.drawn_parts.specs.Drawing.{IsReady, drawing, put_pieces};

use crate::drawing::{PartWalk, put_piece};
use crate::vias::put_vias;
use def_parts::points::Corners;
use design_model::geometry::Rect;
use design_wires::wires::DesignWires;
use net_lists::NetList;
use orient_geom::span;
use statement_reader::parts::Parts;
use std::alloc::{AllocError, Allocator};
use wire_parts::special_nets::SpecialClause;
use wire_shapes::{LayerShape, Piece};

/// The rectangle between two corners, where the second one may repeat a coordinate of the first by `*`.
fn corner_rectangle(corners: &Corners<'_>) -> Rect
    ensures { rectangle_of result ≡ box_of (corners_view corners.now) }
{
    let second = corners.second.after(corners.first);
    span(corners.first.place(), second.place())
}

/// Puts what a clause draws.
fn put_clause<'a, 'l: 'a, 'r: 'a, 't: 'a, A: Allocator + Copy>(
    wires: &DesignWires<'a, 'l, 'r, 't, A>,
    clause: &SpecialClause<'_>,
    walk: &mut PartWalk<'_, '_, A>,
    nets: &mut NetList<'_, A>,
) -> Result<(), AllocError>
    requires { IsReady walk.old nets.old }
    ensures ok { OnOk result (drawing walk.new nets.new ≡ put_pieces walk.old.layers.layers (clause_pieces wires.now.library wires.now.design (scale wires.now.design) (special_clause_view clause.now)) (drawing walk.old nets.old)) }
    ensures ready { OnOk result (IsReady walk.new nets.new) }
    ensures same { OnOk result (walk.new.layers ≡ walk.old.layers) }
{
    match clause {
        SpecialClause::Rectangle(layer, corners) => {
            let shape = LayerShape {
                layer: layer.bytes,
                rect: corner_rectangle(corners),
            };
            put_piece(&Piece::Rectangle(shape), walk, nets)
        }
        SpecialClause::Vias(vias) => put_vias(wires, vias, walk, nets),
        _ => Ok(()),
    }
}

/// Puts what clauses draw, one after the other.
#[tactic(auto, using(crate::proofs::PartLemmas::pieces_append))]
pub(crate) fn put_clauses<'p, 'a, 'l: 'a, 'r: 'a, 't: 'a, A: Allocator + Copy>(
    wires: &DesignWires<'a, 'l, 'r, 't, A>,
    clauses: Parts<'p, SpecialClause<'p>>,
    walk: &mut PartWalk<'_, '_, A>,
    nets: &mut NetList<'_, A>,
) -> Result<(), AllocError>
    requires { IsReady walk.old nets.old }
    ensures ok { OnOk result (drawing walk.new nets.new ≡ put_pieces walk.old.layers.layers (flat_map (clause_pieces wires.now.library wires.now.design (scale wires.now.design)) (special_clauses_of clauses.entry)) (drawing walk.old nets.old)) }
    ensures ready { OnOk result (IsReady walk.new nets.new) }
    ensures same { OnOk result (walk.new.layers ≡ walk.old.layers) }
{
    let mut left = clauses;
    while let Some(clause) = left.next() {
        put_clause(wires, &clause, walk, nets)?;
    }
    Ok(())
}
