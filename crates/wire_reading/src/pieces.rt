//! The pieces of a path of a text.

ghost use Rattle.std.specs.Prelude.{◌≡◌};
ghost use Rattle.entry_rules.specs.WireItems.{net_via, special_via};
ghost use Rattle.net_rules.specs.WirePieces.{path_pieces};
ghost use Rattle.wire_parts.specs.PathViews.{net_path_view, special_path_view};
ghost use Rattle.wire_shapes.specs.PiecesLeft.{pieces_left};
ghost use Rattle.wire_reading.specs.ItemsLeft.{net_items_left, special_items_left};

use crate::item_numbers::extension_of;
use crate::items::{NetItems, SpecialItems, WireItems};
use wire_parts::paths::{Path, SpecialVia, WireVia};
use wire_shapes::{LayerShapes, PathPieces, WiringMakings};

/// The pieces of a path of NETS, which begins on a layer.
pub fn net_path_pieces<'a, 't: 'a, S: LayerShapes<'a>, R: WiringMakings<'a, Shapes = S>>(
    rules: R,
    layer: &'a [u8],
    path: &Path<'t, WireVia<'t>>,
) -> PathPieces<'a, NetItems<'t>, R, S>
    ensures { pieces_left net_items_left R.rules S.shapes result ≡ path_pieces net_via (R.rules rules) layer.entry.now (net_path_view path.now) }
{
    let at = path.start.at.place();
    let extension = extension_of(&path.start);
    let items = WireItems::after(at, path.items.again());
    PathPieces::new(rules, layer, at, extension, items)
}

/// The pieces of a path of SPECIALNETS, which begins on a layer.
pub fn special_path_pieces<'a, 't: 'a, S: LayerShapes<'a>, R: WiringMakings<'a, Shapes = S>>(
    rules: R,
    layer: &'a [u8],
    path: &Path<'t, SpecialVia<'t>>,
) -> PathPieces<'a, SpecialItems<'t>, R, S>
    ensures { pieces_left special_items_left R.rules S.shapes result ≡ path_pieces special_via (R.rules rules) layer.entry.now (special_path_view path.now) }
{
    let at = path.start.at.place();
    let past_start = extension_of(&path.start);
    let items = WireItems::after(at, path.items.again());
    PathPieces::new(rules, layer, at, past_start, items)
}
