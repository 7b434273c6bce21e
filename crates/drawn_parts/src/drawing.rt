//! Pieces that are put into a list of nets as parts of its last net.

ghost use Rattle.std.specs.Prelude.{◌≡◌, [], ◌∷◌, OnOk, option_map};
ghost use Rattle.std.specs.Option.{option_to_list};
ghost use Rattle.connection_rules.specs.NetParts.{goes_on, shapes_of};
ghost use Rattle.measure_rules.specs.Lengths.{piece_length};
ghost use Rattle.wire_shapes.specs.PieceViews.{piece_view};
ghost use Rattle.wire_shapes.specs.RuleViews.{shape_view};
ghost use Rattle.drawn_parts.specs.Drawing.{IsReady, drawing, named_shapes, put_named, put_piece};

use cell_library::library::Library;
use checked_layers::LastLayers;
use net_lists::NetList;
use std::alloc::{AllocError, Allocator, Global};
use wire_shapes::{LayerShape, Piece};

/// What a drawing goes on with from one entry to the next: the layers of its shapes; and whether the part of what is drawn at
/// present stands in the list, where it comes with its first shape.
#[derive(Drop)]
pub struct PartWalk<'a, 'l, A: Allocator = Global> {
    pub(crate) is_begun: bool,
    pub(crate) layers: LastLayers<'a, 'l, A>,
}

impl<'a, 'l, A: Allocator + Copy> PartWalk<'a, 'l, A> {
    /// That of a drawing which has put nothing yet.
    pub fn new(library: &'a Library<'l, A>) -> PartWalk<'a, 'l, A>
        ensures { result.layers ≡ library.entry.now }
    {
        PartWalk {
            is_begun: false,
            layers: LastLayers::new(library),
        }
    }
}

/// Whether a piece is a further shape of the via before it.
#[inline(always)]
fn is_further(piece: &Piece<'_>) -> bool
    ensures { result ≡ goes_on (piece_view piece.now ∷ []) }
{
    match piece {
        Piece::ViaShape { is_first, .. } => !is_first,
        _ => false,
    }
}

/// The shape of a piece, if it has one.
#[inline(always)]
fn shape_of<'p>(piece: &Piece<'p>) -> Option<LayerShape<'p>>
    ensures { named_shapes result ≡ shapes_of (piece_view piece.now) }
{
    match piece {
        Piece::Segment { shape, .. } | Piece::Rectangle(shape) | Piece::ViaShape { shape, .. } =>
            Some(*shape),
        Piece::Diagonal | Piece::UnknownVia(_) | Piece::ViaOffLayer(_) => None,
    }
}

/// The length of a piece.
#[inline(always)]
pub(crate) fn length_of(piece: &Piece<'_>) -> u64
    ensures { result ≡ piece_length (piece_view piece.now) }
{
    match piece {
        Piece::Segment { length, .. } => *length,
        _ => 0,
    }
}

/// Puts a shape into the present part, where its layer is of TYPE ROUTING or CUT.
#[inline(always)]
pub(crate) fn put_shape<A: Allocator + Copy>(
    shape: &LayerShape<'_>,
    walk: &mut PartWalk<'_, '_, A>,
    nets: &mut NetList<'_, A>,
) -> Result<(), AllocError>
    requires { IsReady walk.old nets.old }
    ensures ok { OnOk result (drawing walk.new nets.new ≡ put_named walk.old.layers.layers (shape_view shape.now ∷ []) (drawing walk.old nets.old)) }
    ensures ready { OnOk result (IsReady walk.new nets.new) }
    ensures same { OnOk result (walk.new.layers ≡ walk.old.layers) }
{
    let Some(layer) = walk.layers.layer_of(shape.layer) else {
        return Ok(());
    };
    if !walk.is_begun {
        nets.begin_part(false)?;
        walk.is_begun = true;
    }
    nets.push_shape(layer, shape.rect)
}

/// Puts a piece into the present part where it is a further shape of the via before it, and else into a part of its own.
#[inline(always)]
pub(crate) fn put_piece<A: Allocator + Copy>(
    piece: &Piece<'_>,
    walk: &mut PartWalk<'_, '_, A>,
    nets: &mut NetList<'_, A>,
) -> Result<(), AllocError>
    requires { IsReady walk.old nets.old }
    ensures ok { OnOk result (drawing walk.new nets.new ≡ put_piece walk.old.layers.layers (piece_view piece.now) (drawing walk.old nets.old)) }
    ensures ready { OnOk result (IsReady walk.new nets.new) }
    ensures same { OnOk result (walk.new.layers ≡ walk.old.layers) }
{
    if !is_further(piece) {
        walk.is_begun = false;
    }
    match shape_of(piece) {
        Some(shape) => put_shape(&shape, walk, nets),
        None => Ok(()),
    }
}
