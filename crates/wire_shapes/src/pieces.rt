//! The pieces of a path, one at a time.

ghost use Rattle.std.specs.Prelude.{◌≡◌};
ghost use Rattle.std.proofs.Props.{props};
ghost use Rattle.wire_rules.specs.Paths.{pieces_from};
ghost use Rattle.wire_shapes.specs.ItemViews.{IsPast, IsPlace};
ghost use Rattle.wire_shapes.specs.PathLeft.{IsWalkInReach};

use crate::path_items::PathItems;
use crate::path_walk::{PathPlace, PathWalk};
use crate::piece::Piece;
use crate::wiring_makings::{LayerShapes, WiringMakings};
use design_model::geometry::Point;

/// Gives the pieces of a path in their order: of each item those that it has, and of a via its shapes at each place of its
/// array, row by row, and then that it joins the path's layer to no other, if so. It takes no memory.
#[derive(Drop)]
pub struct PathPieces<'t, I, R, S> {
    walk: PathWalk<'t, I, R, S>,
    ghost reach: { IsWalkInReach walk } by { Prim.hlevel props },
}

impl<'t, I: PathItems<'t>, S: LayerShapes<'t>, R: WiringMakings<'t, Shapes = S>> PathPieces<
    't,
    I,
    R,
    S,
> {
    ghost use Rattle.wire_shapes.specs.PiecesLeft.{pieces_left};

    /// The pieces of a path that is on a layer at a point and goes on with these items. An extension says how far the wire
    /// goes past the point.
    pub fn new(rules: R, layer: &'t [u8], at: Point, extension: Option<i64>, items: I) -> Self
        requires at { IsPlace at }
        requires extension { IsPast extension }
        ensures { pieces_left I.items R.rules S.shapes result ≡ pieces_from (R.rules rules) (record { layer = layer.now; at = at; past = extension }) (I.items items) }
    {
        let place = PathPlace {
            layer,
            at,
            past: extension,
        };
        PathPieces {
            walk: PathWalk {
                rules,
                items,
                place,
                via: None,
            },
        }
    }
}

impl<'t, I: PathItems<'t>, S: LayerShapes<'t>, R: WiringMakings<'t, Shapes = S>> Iterator
    for PathPieces<'t, I, R, S> {
    ghost use Rattle.std.specs.Iterator.{item_count};
    ghost use Rattle.wire_shapes.specs.PieceViews.{GivesPiece};
    ghost use Rattle.wire_shapes.specs.PiecesLeft.{pieces_left};

    type Item = Piece<'t>;

    ghost next_gives = { λ p found q. GivesPiece (pieces_left I.items R.rules S.shapes p) found (pieces_left I.items R.rules S.shapes q) };

    ghost remaining = { item_count (pieces_left I.items R.rules S.shapes) };

    #[inline(always)]
    fn next(&mut self) -> Option<Piece<'t>> {
        self.walk.next()
    }
}
