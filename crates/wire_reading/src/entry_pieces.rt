//! The pieces of all wires of an entry, one after the other.

ghost use Rattle.std.specs.Prelude.{◌≡◌, None};
ghost use Rattle.wire_parts.specs.NetViews.{net_view};
ghost use Rattle.wire_parts.specs.SpecialNetViews.{special_net_view};
ghost use Rattle.wire_shapes.specs.PieceViews.{GivesPiece};
ghost use Rattle.wire_reading.specs.EntryLeft.{entry_left, wire_left};
ghost use Rattle.wire_reading.specs.ItemsLeft.{net_items_left, special_items_left};
ghost use Rattle.wire_reading.specs.PiecesBy.{net_pieces_by, special_net_pieces_by};
ghost use Rattle.wire_reading.specs.WiresLeft.{net_left, special_left};

use crate::beginning::{Begun, begin};
use crate::items::{NetItems, SpecialItems};
use crate::made_wires::{MadeWires, NetWires, SpecialNetWires, net_wire_pieces};
use crate::makings_of::{NetMakingsOf, SpecialMakingsOf};
use wire_parts::nets::NetParts;
use wire_parts::special_nets::SpecialNetParts;
use wire_shapes::{LayerShapes, PathItems, PathPieces, Piece, WiringMakings};

/// Gives the pieces of the wires of an entry in their order, wire by wire. It takes no memory.
#[derive(Drop)]
pub struct EntryPieces<'a, W, I, R, S> {
    wires: W,
    present: Option<PathPieces<'a, I, R, S>>,
}

impl<'a, W, I, R, S> EntryPieces<'a, W, I, R, S> {
    /// Before the first of these wires.
    fn of(wires: W) -> EntryPieces<'a, W, I, R, S>
        ensures wires { result.wires ≡ wires }
        ensures first { result.present ≡ None }
    {
        EntryPieces {
            wires,
            present: None,
        }
    }
}

/// Those of an entry of NETS, made by `M`.
pub type NetPieces<'a, 't, M, R, S> = EntryPieces<'a, NetWires<'t, M>, NetItems<'t>, R, S>;

/// Those of an entry of SPECIALNETS, made by `M`.
pub type SpecialNetPieces<'a, 't, M, R, S> = EntryPieces<
    'a,
    SpecialNetWires<'t, M>,
    SpecialItems<'t>,
    R,
    S,
>;

/// The pieces of the wires of a net.
pub fn net_pieces<'a, 't: 'a, M, R, S>(parts: &NetParts<'t>, maker: M) -> NetPieces<'a, 't, M, R, S>
where
    S: LayerShapes<'a>,
    R: WiringMakings<'a, Shapes = S>,
    M: NetMakingsOf<'a, Rules = R>,
    ensures { entry_left (net_left M.makings_of) net_items_left R.rules S.shapes result ≡ net_pieces_by (M.makings_of maker) (net_view parts.now) }
{
    let Begun { rule, first, paths } = begin(&parts.clauses);
    let present = match first {
        Some(wire) => Some(net_wire_pieces(&maker, rule, &wire)),
        None => None,
    };
    EntryPieces {
        wires: NetWires { paths, rule, maker },
        present,
    }
}

/// The pieces of the wires of a special net.
pub fn special_net_pieces<'a, 't: 'a, M, R, S>(
    parts: &SpecialNetParts<'t>,
    maker: M,
) -> SpecialNetPieces<'a, 't, M, R, S>
where
    S: LayerShapes<'a>,
    R: WiringMakings<'a, Shapes = S>,
    M: SpecialMakingsOf<'a, Rules = R>,
    ensures { entry_left (special_left M.makings_of) special_items_left R.rules S.shapes result ≡ special_net_pieces_by (M.makings_of maker) (special_net_view parts.now) }
{
    let special_paths = parts.paths();
    EntryPieces::of(SpecialNetWires {
        paths: special_paths,
        maker,
    })
}

/// The next piece of the present wire.
#[inline(always)]
fn next_of_wire<'a, I, R, S>(present: &mut Option<PathPieces<'a, I, R, S>>) -> Option<Piece<'a>>
where
    I: PathItems<'a>,
    S: LayerShapes<'a>,
    R: WiringMakings<'a, Shapes = S>,
    ensures { GivesPiece (wire_left I.items R.rules S.shapes present.old) result (wire_left I.items R.rules S.shapes present.new) }
{
    match present {
        Some(pieces) => pieces.next(),
        None => None,
    }
}

impl<
    'a,
    I: PathItems<'a>,
    S: LayerShapes<'a>,
    R: WiringMakings<'a, Shapes = S>,
    W: MadeWires<'a, I, R, S>,
> Iterator for EntryPieces<'a, W, I, R, S> {
    ghost use Rattle.std.specs.Iterator.{item_count};
    ghost use Rattle.wire_shapes.specs.PieceViews.{GivesPiece};
    ghost use Rattle.wire_reading.specs.EntryLeft.{entry_left};

    type Item = Piece<'a>;

    ghost next_gives = { λ p found q. GivesPiece (entry_left W.pieces I.items R.rules S.shapes p) found (entry_left W.pieces I.items R.rules S.shapes q) };

    ghost remaining = { item_count (entry_left W.pieces I.items R.rules S.shapes) };

    fn next(&mut self) -> Option<Piece<'a>> {
        let mut piece = next_of_wire(&mut self.present);
        while piece.is_none() {
            let wire = self.wires.next_wire()?;
            self.present = Some(wire);
            piece = next_of_wire(&mut self.present);
        }
        piece
    }
}
