//! The wires of an entry with their rules, one after the other.

ghost use Rattle.std.specs.Prelude.{◌≡◌, ◌<◌, IfSome, List};
ghost use Rattle.std.specs.Option.{option_map};
ghost use Rattle.lefdef_tokens.specs.Views.{word_view};
ghost use Rattle.wire_parts.specs.WiringViews.{wire_view};
ghost use Rattle.wire_rules.specs.Paths.{Piece};
ghost use Rattle.wire_shapes.specs.PiecesLeft.{pieces_left};
ghost use Rattle.wire_reading.specs.ItemsLeft.{net_items_left};
ghost use Rattle.wire_reading.specs.PiecesBy.{wire_pieces_by};
ghost use Rattle.wire_reading.specs.WiresLeft.{GivesWire, net_left, special_left};

use crate::item_numbers::size_of;
use crate::items::{NetItems, SpecialItems};
use crate::makings_of::{NetMakingsOf, SpecialMakingsOf};
use crate::pieces::{net_path_pieces, special_path_pieces};
use crate::wire_rule::rule_of_wire;
use wire_parts::net_wires::NetPaths;
use wire_parts::special_wires::SpecialPaths;
use wire_parts::wiring::Wire;
use wire_shapes::{LayerShapes, PathItems, PathPieces, WiringMakings};

/// The wires that are left of an entry, which are given by their pieces, in their order.
pub trait MadeWires<
    'a,
    I: PathItems<'a>,
    R: WiringMakings<'a, Shapes = S>,
    S: LayerShapes<'a>,
>: Sized
    + Drop {
    ghost use Rattle.std.specs.Prelude.{ℕ};

    ghost pieces: { Self → List Piece };

    ghost count: { Self → ℕ };

    /// The pieces of the next wire; at the end `None`.
    fn next_wire(&mut self) -> Option<PathPieces<'a, I, R, S>>
        ensures gives { GivesWire I.items R.rules S.shapes (pieces self.old) result (pieces self.new) }
        ensures fewer { IfSome result (λ p. count self.new < count self.old) };
}

/// The pieces of a wire of a net that has this rule, if any.
#[inline(always)]
pub(crate) fn net_wire_pieces<
    'a,
    't: 'a,
    S: LayerShapes<'a>,
    R: WiringMakings<'a, Shapes = S>,
    M: NetMakingsOf<'a, Rules = R>,
>(maker: &M, rule: Option<&'t [u8]>, wire: &Wire<'t>) -> PathPieces<'a, NetItems<'t>, R, S>
    ensures { pieces_left net_items_left R.rules S.shapes result ≡ wire_pieces_by (M.makings_of maker.now) (option_map word_view rule.entry) (wire_view wire.now) }
{
    let rules = maker.rules(rule_of_wire(rule, wire.taper));
    net_path_pieces(rules, wire.layer.bytes, &wire.path)
}

/// The wires of an entry of NETS.
#[derive(Drop)]
pub struct NetWires<'t, M> {
    pub(crate) paths: NetPaths<'t>,
    /// That of the net.
    pub(crate) rule: Option<&'t [u8]>,
    pub(crate) maker: M,
}

impl<
    'a,
    't: 'a,
    S: LayerShapes<'a>,
    R: WiringMakings<'a, Shapes = S>,
    M: NetMakingsOf<'a, Rules = R>,
> MadeWires<'a, NetItems<'t>, R, S> for NetWires<'t, M> {
    ghost use Rattle.std.specs.Prelude.{length};
    ghost use Rattle.wire_parts.specs.NetWireViews.{paths_left};

    ghost pieces = { net_left M.makings_of };

    ghost count = { λ w. length (paths_left w.paths) };

    fn next_wire(&mut self) -> Option<PathPieces<'a, NetItems<'t>, R, S>> {
        let wire = self.paths.next()?;
        Some(net_wire_pieces(&self.maker, self.rule, &wire))
    }
}

/// The wires of an entry of SPECIALNETS.
#[derive(Drop)]
pub struct SpecialNetWires<'t, M> {
    pub(crate) paths: SpecialPaths<'t>,
    pub(crate) maker: M,
}

impl<
    'a,
    't: 'a,
    S: LayerShapes<'a>,
    R: WiringMakings<'a, Shapes = S>,
    M: SpecialMakingsOf<'a, Rules = R>,
> MadeWires<'a, SpecialItems<'t>, R, S> for SpecialNetWires<'t, M> {
    ghost use Rattle.std.specs.Prelude.{length};
    ghost use Rattle.wire_parts.specs.SpecialWireViews.{special_paths_left};

    ghost pieces = { special_left M.makings_of };

    ghost count = { λ w. length (special_paths_left w.paths) };

    fn next_wire(&mut self) -> Option<PathPieces<'a, SpecialItems<'t>, R, S>> {
        let wire = self.paths.next()?;
        let rules = self.maker.rules(size_of(wire.width.bytes));
        Some(special_path_pieces(rules, wire.layer.bytes, &wire.path))
    }
}
