//! What paths ask of a via, found once.

ghost use Rattle.std.specs.Prelude.{◌≡◌, None, IfOk, MatchOption, map};
ghost use Rattle.entry_rules.specs.ViaLayers.{layers_named};
ghost use Rattle.net_rules.specs.ViaRectangles.{via_shapes};
ghost use Rattle.design_wires.specs.Defined.{defined};
ghost use Rattle.design_wires.specs.KnownShapes.{near_view};
ghost use Rattle.design_wires.specs.KnownVias.{IsVia};
ghost use Rattle.design_wires.specs.Scales.{units_of};
ghost use Rattle.design_wires.specs.ViaRectsLeft.{rects_left};

use crate::definitions::Definitions;
use crate::near_shape::NearShape;
use crate::via_rects::ViaRects;
use crate::via_view::ViaView;
use design_model::sequence::Sequence;
use entry_checks::joined_layers::JoinedLayers;
use entry_checks::via_layers::joined_layers;
use std::alloc::{AllocError, Allocator, Global};
use wire_shapes::LayerShapes;

/// The layers that a via joins, and its shapes in database units.
#[derive(Drop)]
pub(crate) struct KnownVia<'a, A: Allocator = Global> {
    pub(crate) joined: JoinedLayers<'a>,
    pub(crate) shapes: Sequence<NearShape<'a>, A>,
}

/// The shapes of the via of a name; none where it isn't known.
fn rects_named<'a, 'l: 'a, 'r: 'a, 't: 'a, A: Allocator + Copy>(
    of: Definitions<'a, 'l, 'r, 't, A>,
    name: &[u8],
) -> ViaRects<'a, 'l, 't, A>
    ensures { rects_left result ≡ via_shapes of.entry.library.now of.entry.names.now (units_of of.entry.scale) name.now }
{
    let Some(via) = ViaView::find(of.library, of.names, name) else {
        return ViaRects::none();
    };
    ViaRects::new(via, of.scale)
}

/// The shapes that are left of a via.
fn listed<'a, 'l: 'a, 't: 'a, A: Allocator + Copy>(
    alloc: A,
    rects: ViaRects<'a, 'l, 't, A>,
) -> Result<Sequence<NearShape<'a>, A>, AllocError>
    ensures { IfOk result (λ shapes. map near_view shapes ≡ rects_left rects.entry) }
{
    let mut left = rects;
    let mut shapes = Sequence::new(alloc);
    while let Some(shape) = left.next() {
        shapes.push(NearShape { shape })?;
    }
    Ok(shapes)
}

/// The via of a name, if there is one.
pub(crate) fn known_via<'a, 'l: 'a, 'r: 'a, 't: 'a, A: Allocator + Copy>(
    alloc: A,
    of: Definitions<'a, 'l, 'r, 't, A>,
    name: &[u8],
) -> Result<Option<KnownVia<'a, A>>, AllocError>
    ensures { IfOk result (λ found. MatchOption found (layers_named of.entry.library.now of.entry.names.now name.now ≡ None) (IsVia (defined of.entry) name.now)) }
{
    let Some(joined) = joined_layers(of.library, of.names, name) else {
        return Ok(None);
    };
    let shapes = listed(alloc, rects_named(of, name))?;
    Ok(Some(KnownVia { joined, shapes }))
}
