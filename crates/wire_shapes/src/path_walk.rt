//! What is left of a path: its place, the via that it uses there, and the items after that.

ghost use Rattle.std.specs.Prelude.{◌≡◌, [], ◌∷◌, ◌++◌, IfSome, IsNone};
ghost use Rattle.design_model.specs.Views.{rectangle_of};
ghost use Rattle.wire_rules.specs.Paths.{past_of, patch, pieces_at, segment_to, to_point, use_via};
ghost use Rattle.design_model.specs.Ranges.{IsArray, IsBoxWithin, IsSize};
ghost use Rattle.wire_shapes.specs.ItemViews.{IsItemInRange, IsPast, IsPlace, item_view, via_use_view};
ghost use Rattle.wire_shapes.specs.PathLeft.{Enters, IsWalkInReach, found_list, left_of, place_view, via_part};
ghost use Rattle.wire_shapes.specs.PieceViews.{GivesPiece, IsPieceNear, piece_view};
ghost use Rattle.wire_shapes.specs.ViaLeft.{array_shapes, note_if};

use crate::path_items::{PathItem, PathItems, ViaUse};
use crate::piece::Piece;
use crate::segment::segment_between;
use crate::via_walk::ViaWalk;
use crate::wiring_makings::{LayerShape, LayerShapes, ViaOn, WiringMakings};
use design_model::geometry::{Point, Rect};
use orient_geom::move_by;

/// Where a path is: its layer, its last point, and how far the wire goes past that where it is said.
#[derive(Clone, Copy)]
pub(crate) struct PathPlace<'t> {
    pub(crate) layer: &'t [u8],
    pub(crate) at: Point,
    pub(crate) past: Option<i64>,
}

/// A path from a place on. A via that it uses there comes before its items.
#[derive(Drop)]
pub(crate) struct PathWalk<'t, I, R, S> {
    pub(crate) rules: R,
    pub(crate) items: I,
    pub(crate) place: PathPlace<'t>,
    pub(crate) via: Option<ViaWalk<'t, S>>,
}

/// How far a wire goes past a point.
#[inline(always)]
fn past_of(default: i64, past: Option<i64>) -> i64
    requires default { IsSize default }
    requires past { IsPast past }
    ensures is { result ≡ past_of default past }
    ensures size { IsSize result }
{
    match past {
        Some(past) => past,
        None => default,
    }
}

impl<'t, I: PathItems<'t>, S: LayerShapes<'t>, R: WiringMakings<'t, Shapes = S>> PathWalk<
    't,
    I,
    R,
    S,
> {
    /// The first piece that is left of the via that the path uses at its place.
    #[inline(always)]
    fn next_of_via(&mut self) -> Option<Piece<'t>>
        requires { IsWalkInReach self.old }
        ensures gives { GivesPiece (via_part S.shapes self.old.via) result (via_part S.shapes self.new.via) }
        ensures reach { IsWalkInReach self.new }
        ensures rules { self.new.rules ≡ self.old.rules }
        ensures items { self.new.items ≡ self.old.items }
        ensures place { self.new.place ≡ self.old.place }
    {
        match &mut self.via {
            Some(walk) => walk.next(),
            None => None,
        }
    }

    /// The wire to a point.
    #[inline(always)]
    fn segment_to(&self, to: Point, past: Option<i64>) -> Piece<'t>
        requires reach { IsWalkInReach self.now }
        requires to { IsPlace to }
        requires past { IsPast past }
        ensures is { piece_view result ≡ segment_to (R.rules self.now.rules) (place_view self.now.place) to past }
        ensures near { IsPieceNear result }
    {
        let place = self.place;
        let width = self.rules.width(place.layer);
        let default = self.rules.past_end(width);
        let past_a = past_of(default, place.past);
        let past_b = past_of(default, past);
        segment_between(place.layer, width, place.at, past_a, to, past_b)
    }

    /// Goes on to a point, with a wire.
    #[inline(always)]
    fn enter_point(&mut self, to: Point, past: Option<i64>) -> Piece<'t>
        requires reach { IsWalkInReach self.old }
        requires done { via_part S.shapes self.old.via ≡ [] }
        requires to { IsPlace to }
        requires past { IsPast past }
        ensures is { Enters I.items R.rules S.shapes self.old (to_point to past) (Some result) self.new }
        ensures near { IsPieceNear result }
        ensures reach { IsWalkInReach self.new }
        ensures items { self.new.items ≡ self.old.items }
    {
        let piece = self.segment_to(to, past);
        self.place.at = to;
        self.place.past = past;
        piece
    }

    /// A rectangle about the last point.
    #[inline(always)]
    fn patch(&self, rect: Rect) -> Piece<'t>
        requires reach { IsWalkInReach self.now }
        requires near { IsBoxWithin 2147483647 (rectangle_of rect) }
        ensures is { piece_view result ∷ [] ≡ pieces_at (R.rules self.now.rules) (place_view self.now.place) (patch (rectangle_of rect)) }
        ensures near { IsPieceNear result }
    {
        let rect = move_by(rect, self.place.at);
        Piece::Rectangle(LayerShape {
            layer: self.place.layer,
            rect,
        })
    }

    /// Begins a via at the last point, and gives its first piece, if it has any.
    #[inline(always)]
    fn begin_via(&mut self, via: ViaUse<'t>, off_layer: bool) -> Option<Piece<'t>>
        requires reach { IsWalkInReach self.old }
        requires step { IsPlace via.step }
        requires array { IsArray via.columns via.rows }
        ensures gives { found_list result ++ via_part S.shapes self.new.via ≡ array_shapes ((R.rules self.old.rules).via_shapes via.entry.name.now) (via_use_view via.entry) self.old.place.at ++ note_if via.entry.name.now off_layer }
        ensures done { IsNone result → via_part S.shapes self.new.via ≡ [] }
        ensures near { IfSome result IsPieceNear }
        ensures reach { IsWalkInReach self.new }
        ensures rules { self.new.rules ≡ self.old.rules }
        ensures items { self.new.items ≡ self.old.items }
        ensures place { self.new.place ≡ self.old.place }
    {
        let shapes = self.rules.via_shapes(via.name);
        self.via = Some(ViaWalk::new(via, shapes, self.place.at, off_layer));
        self.next_of_via()
    }

    /// Goes on with a via: where it joins the layer to another, the path is on that from there on.
    #[inline(always)]
    fn enter_via(&mut self, via: ViaUse<'t>) -> Option<Piece<'t>>
        requires reach { IsWalkInReach self.old }
        requires done { via_part S.shapes self.old.via ≡ [] }
        requires step { IsPlace via.step }
        requires array { IsArray via.columns via.rows }
        ensures is { Enters I.items R.rules S.shapes self.old (use_via (via_use_view via.entry)) result self.new }
        ensures done { IsNone result → via_part S.shapes self.new.via ≡ [] }
        ensures near { IfSome result IsPieceNear }
        ensures reach { IsWalkInReach self.new }
        ensures items { self.new.items ≡ self.old.items }
    {
        match self.rules.via_on(via.name, self.place.layer) {
            ViaOn::Unknown => Some(Piece::UnknownVia(via.name)),
            ViaOn::Stays => self.begin_via(via, true),
            ViaOn::Leads(layer) => {
                let piece = self.begin_via(via, false);
                self.place.layer = layer;
                piece
            }
        }
    }

    /// Goes on with an item, and gives the item's first piece, if it has any.
    #[inline(always)]
    fn enter(&mut self, item: PathItem<'t>) -> Option<Piece<'t>>
        requires reach { IsWalkInReach self.old }
        requires done { via_part S.shapes self.old.via ≡ [] }
        requires in_range { IsItemInRange item }
        ensures is { Enters I.items R.rules S.shapes self.old (item_view item.entry) result self.new }
        ensures done { IsNone result → via_part S.shapes self.new.via ≡ [] }
        ensures near { IfSome result IsPieceNear }
        ensures reach { IsWalkInReach self.new }
        ensures items { self.new.items ≡ self.old.items }
    {
        match item {
            PathItem::ToPoint(to, past) => Some(self.enter_point(to, past)),
            PathItem::JumpTo(to) => {
                self.place.at = to;
                self.place.past = None;
                None
            }
            PathItem::Patch(rect) => Some(self.patch(rect)),
            PathItem::UseVia(via) => self.enter_via(via),
        }
    }

    /// The first piece that is left; at the end `None`.
    #[inline(always)]
    pub(crate) fn next(&mut self) -> Option<Piece<'t>>
        requires { IsWalkInReach self.old }
        ensures gives { GivesPiece (left_of I.items R.rules S.shapes self.old) result (left_of I.items R.rules S.shapes self.new) }
        ensures reach { IsWalkInReach self.new }
    {
        let mut piece = self.next_of_via();
        while piece.is_none() {
            let item = self.items.next()?;
            piece = self.enter(item);
        }
        piece
    }
}
