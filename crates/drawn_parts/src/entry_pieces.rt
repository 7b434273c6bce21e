//! The pieces of the wires of an entry, put into a list of nets.

ghost use Rattle.std.specs.Prelude.{◌≡◌, IfOk, OnOk};
ghost use Rattle.std.specs.List.{sum_by};
ghost use Rattle.net_rules.specs.WirePieces.{net_pieces, special_net_pieces};
ghost use Rattle.design_rules.specs.Boxes.{scale};
ghost use Rattle.measure_rules.specs.Lengths.{piece_length};
ghost use Rattle.wire_parts.specs.NetViews.{net_view};
ghost use Rattle.wire_parts.specs.SpecialNetViews.{special_net_view};
ghost use Rattle.wire_reading.specs.EntryLeft.{entry_left};
ghost use Rattle.drawn_parts.specs.Drawing.{IsReady, drawing, put_pieces};
ghost use Rattle.drawn_parts.specs.DrawnLengths.{capped};

use crate::drawing::{PartWalk, length_of, put_piece};
use design_wires::makings_of_design::DesignMakings;
use design_wires::wires::DesignWires;
use net_lists::NetList;
use std::alloc::{AllocError, Allocator};
use wire_parts::nets::NetParts;
use wire_parts::special_nets::SpecialNetParts;
use wire_reading::{EntryPieces, MadeWires, net_pieces, pieces_of_design, special_net_pieces};
use wire_shapes::{LayerShapes, PathItems, WiringMakings};

/// Puts the pieces that are left of the wires of an entry, one after the other, and gives the sum of their lengths.
fn put_pieces<'a, W, I, R, S, A>(
    pieces: EntryPieces<'a, W, I, R, S>,
    walk: &mut PartWalk<'_, '_, A>,
    nets: &mut NetList<'_, A>,
) -> Result<u64, AllocError>
where
    I: PathItems<'a>,
    S: LayerShapes<'a>,
    R: WiringMakings<'a, Shapes = S>,
    W: MadeWires<'a, I, R, S>,
    A: Allocator + Copy,
    requires { IsReady walk.old nets.old }
    ensures ok { OnOk result (drawing walk.new nets.new ≡ put_pieces walk.old.layers.layers (entry_left W.pieces I.items R.rules S.shapes pieces.entry) (drawing walk.old nets.old)) }
    ensures ready { OnOk result (IsReady walk.new nets.new) }
    ensures same { OnOk result (walk.new.layers ≡ walk.old.layers) }
    ensures length { IfOk result (λ n. n ≡ capped (sum_by piece_length (entry_left W.pieces I.items R.rules S.shapes pieces.entry))) }
{
    let mut length: u64 = 0;
    for piece in pieces {
        put_piece(&piece, walk, nets)?;
        length = length.saturating_add(length_of(&piece));
    }
    Ok(length)
}

/// Puts the pieces of the wires of a net, and gives the sum of their lengths.
pub(crate) fn put_net_wires<'a, 'l: 'a, 'r: 'a, 't: 'a, A: Allocator + Copy>(
    wires: &DesignWires<'a, 'l, 'r, 't, A>,
    parts: &NetParts<'_>,
    walk: &mut PartWalk<'_, '_, A>,
    nets: &mut NetList<'_, A>,
) -> Result<u64, AllocError>
    requires { IsReady walk.old nets.old }
    ensures ok { OnOk result (drawing walk.new nets.new ≡ put_pieces walk.old.layers.layers (net_pieces wires.now.library wires.now.design (scale wires.now.design) (net_view parts.now)) (drawing walk.old nets.old)) }
    ensures ready { OnOk result (IsReady walk.new nets.new) }
    ensures same { OnOk result (walk.new.layers ≡ walk.old.layers) }
    ensures length { IfOk result (λ n. n ≡ capped (sum_by piece_length (net_pieces wires.now.library wires.now.design (scale wires.now.design) (net_view parts.now)))) }
{
    pieces_of_design();
    put_pieces(net_pieces(parts, DesignMakings { wires }), walk, nets)
}

/// Puts the pieces of the wires of a special net, and gives the sum of their lengths.
pub(crate) fn put_special_wires<'a, 'l: 'a, 'r: 'a, 't: 'a, A: Allocator + Copy>(
    wires: &DesignWires<'a, 'l, 'r, 't, A>,
    parts: &SpecialNetParts<'_>,
    walk: &mut PartWalk<'_, '_, A>,
    nets: &mut NetList<'_, A>,
) -> Result<u64, AllocError>
    requires { IsReady walk.old nets.old }
    ensures ok { OnOk result (drawing walk.new nets.new ≡ put_pieces walk.old.layers.layers (special_net_pieces wires.now.library wires.now.design (scale wires.now.design) (special_net_view parts.now)) (drawing walk.old nets.old)) }
    ensures ready { OnOk result (IsReady walk.new nets.new) }
    ensures same { OnOk result (walk.new.layers ≡ walk.old.layers) }
    ensures length { IfOk result (λ n. n ≡ capped (sum_by piece_length (special_net_pieces wires.now.library wires.now.design (scale wires.now.design) (special_net_view parts.now)))) }
{
    pieces_of_design();
    put_pieces(
        special_net_pieces(parts, DesignMakings { wires }),
        walk,
        nets,
    )
}
