//! The shapes of a via that a path uses, one at a time.

ghost use Rattle.std.specs.Prelude.{◌≡◌, ◌++◌};
ghost use Rattle.design_model.specs.Views.{rectangle_of};
ghost use Rattle.wire_rules.specs.Paths.{array_of, shape_at};
ghost use Rattle.design_model.specs.Ranges.{IsArray, IsBoxWithin, IsPointWithin};
ghost use Rattle.wire_shapes.specs.ItemViews.{IsPlace, via_use_view};
ghost use Rattle.wire_shapes.specs.PieceViews.{GivesPiece, IsPieceNear, piece_view};
ghost use Rattle.wire_shapes.specs.PlacesLeft.{reach};
ghost use Rattle.wire_shapes.specs.RuleViews.{shape_reach, shape_view};
ghost use Rattle.wire_shapes.specs.ViaLeft.{IsViaInReach, array_shapes, note_if, note_left, shapes_left, via_left};

use crate::path_items::ViaUse;
use crate::piece::Piece;
use crate::via_places::ViaPlaces;
use crate::wiring_makings::{LayerShape, LayerShapes};
use design_model::geometry::Point;
use orient_geom::pin_rect;

/// The shapes that are left of a via at a place, the places after it, and the note that the via is off its layer.
#[derive(Drop)]
pub(crate) struct ViaWalk<'t, S> {
    via: ViaUse<'t>,
    all: S,
    left: S,
    is_first: bool,
    at: Point,
    places: ViaPlaces,
    off_layer: bool,
}

impl<'t, S: LayerShapes<'t>> ViaWalk<'t, S> {
    /// A via with these shapes at a point, from its first shape on.
    pub(crate) fn new(via: ViaUse<'t>, shapes: S, at: Point, off_layer: bool) -> ViaWalk<'t, S>
        requires in_range { IsArray via.columns via.rows }
        requires step { IsPlace via.step }
        requires at { IsPlace at }
        ensures is { via_left S.shapes result ≡ array_shapes (S.shapes shapes) (via_use_view via.entry) at ++ note_if via.entry.name.now off_layer }
        ensures reach { IsViaInReach result }
    {
        let places = ViaPlaces::after_first(&via, at);
        ViaWalk {
            via,
            all: shapes,
            left: shapes,
            is_first: true,
            at,
            places,
            off_layer,
        }
    }

    /// A shape of the via at its present place, which may be the first there.
    #[inline(always)]
    fn piece_of(&self, shape: LayerShape<'t>, is_first: bool) -> Piece<'t>
        requires at { IsPointWithin (reach 0) self.now.at }
        requires near { IsBoxWithin shape_reach (rectangle_of shape.rect) }
        ensures is { piece_view result ≡ shape_at (via_use_view self.now.via) self.now.at is_first (shape_view shape.entry) }
        ensures near { IsPieceNear result }
    {
        let rect = pin_rect(self.via.orient, self.at, shape.rect);
        Piece::ViaShape {
            via: self.via.name,
            at: self.at,
            is_first,
            shape: LayerShape {
                layer: shape.layer,
                rect,
            },
        }
    }

    /// The first shape that is left; at the end `None`.
    #[inline(always)]
    fn next_shape(&mut self) -> Option<Piece<'t>>
        requires { IsViaInReach self.old }
        ensures gives { GivesPiece (shapes_left S.shapes self.old) result (shapes_left S.shapes self.new) }
        ensures reach { IsViaInReach self.new }
        ensures note { note_left self.new ≡ note_left self.old }
    {
        let is_first = self.is_first;
        if let Some(shape) = self.left.next() {
            self.is_first = false;
            return Some(self.piece_of(shape, is_first));
        }
        self.at = self.places.next()?;
        self.left = self.all;
        let shape = self.left.next()?;
        self.is_first = false;
        Some(self.piece_of(shape, true))
    }

    /// The first piece that is left; at the end `None`.
    #[inline(always)]
    pub(crate) fn next(&mut self) -> Option<Piece<'t>>
        requires { IsViaInReach self.old }
        ensures gives { GivesPiece (via_left S.shapes self.old) result (via_left S.shapes self.new) }
        ensures reach { IsViaInReach self.new }
    {
        if let Some(piece) = self.next_shape() {
            return Some(piece);
        }
        if !self.off_layer {
            return None;
        }
        self.off_layer = false;
        Some(Piece::ViaOffLayer(self.via.name))
    }
}
