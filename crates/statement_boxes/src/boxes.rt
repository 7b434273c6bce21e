//! Boxes of statements, searched by tiles.

ghost use Rattle.std.specs.Prelude.{◌≡◌, ◌≢◌, ◌≤◌, ◌∷◌, All, IfOk, IsFalse, IsTrue, OnErr, OnOk, map};
ghost use Rattle.line_laws.specs.Lines.{SameThings};
ghost use Rattle.design_model.specs.Views.{rectangle_of};
ghost use Rattle.shape_index.specs.Pushing.{Pushes};
ghost use Rattle.statement_boxes.specs.Boxes.{box_view, met_by, met_count, near_count};
ghost use Rattle.statement_boxes.specs.BoxShapes.{number_of};

use crate::statement_box::{LAYER, StatementBox, shape_of};
use design_model::geometry::Rect;
use design_model::identifier::StmtId;
use shape_index::{Shape, ShapeSet, TiledShapes};
use std::alloc::{AllocError, Allocator, Global};
use std::marker::Model;

/// Boxes of statements, searched by tiles.
#[derive(Drop)]
pub struct StatementBoxes<A: Allocator = Global> {
    // Each box as a shape of one layer, whose net is the statement's number.
    pub(crate) tiles: TiledShapes<A>,
}

/// The statements whose boxes meet a rectangle.
#[derive(Drop)]
pub struct MetStatements<A: Allocator = Global> {
    /// Their numbers, in an order that is left open.
    pub ids: Vec<StmtId, A>,
    /// How many boxes were compared: these at least.
    pub compared: u64,
}

impl<A: Allocator> Model for StatementBoxes<A> {
    ghost use Rattle.std.specs.Prelude.{List, map};
    ghost use Rattle.design_model.specs.Geometry.{Rectangle};
    ghost use Rattle.design_model.specs.declared.identifier.StmtId.{StmtId as Number};
    ghost use Rattle.statement_boxes.specs.BoxShapes.{AreOnTheLayer, box_of};

    ghost Value = { List (Number × Rectangle) };

    ghost view = { λ s. map box_of s.tiles.entries };

    ghost invariant = { λ s. AreOnTheLayer s.tiles.entries };
}

impl<A: Allocator + Copy> StatementBoxes<A> {
    /// A set of these boxes, made at once.
    pub fn of(alloc: A, boxes: &[StatementBox]) -> Result<Self, AllocError>
        ensures { IfOk result (λ s. SameThings s (map box_view boxes.now)) }
    {
        let shapes: Vec<Shape, A> = boxes.iter().map(shape_of).collect(alloc)?;
        Ok(StatementBoxes {
            tiles: TiledShapes::of(alloc, &shapes)?,
        })
    }

    /// Puts a box in.
    pub fn insert(&mut self, put: StatementBox) -> Result<(), AllocError>
        ensures added { OnOk result (SameThings self.new (box_view put ∷ self.old)) }
        ensures kept { OnErr result (self.new ≡ self.old) }
    {
        self.tiles.reserve(1)?;
        self.tiles.insert_reserved(shape_of(&put));
        Ok(())
    }

    /// Takes a box out, once. Answers whether there was one.
    pub fn remove(&mut self, gone: StatementBox) -> bool
        ensures removed { IsTrue result → SameThings self.old (box_view gone ∷ self.new) }
        ensures kept { IsFalse result → self.new ≡ self.old }
        ensures absent { IsFalse result → All (λ b. b ≢ box_view gone) self.old }
    {
        let Some(id) = self.tiles.find(shape_of(&gone)) else {
            return false;
        };
        self.tiles.remove(id);
        true
    }

    /// The statements whose boxes meet a rectangle.
    pub fn met(&self, alloc: A, rect: Rect) -> Result<MetStatements<A>, AllocError>
        ensures those { IfOk result (λ m. SameThings m.ids.items (map (λ b. b.0) (met_by (rectangle_of rect) self.now))) }
        ensures compared { IfOk result (λ m. m.compared ≤ near_count (rectangle_of rect) self.now) }
        ensures least { IfOk result (λ m. met_count (rectangle_of rect) self.now ≤ m.compared) }
    {
        let (ids, compared) = self.tiles.for_met(
            LAYER,
            rect,
            Ok(Vec::new(alloc)),
            |ids, _, shape| push_number(ids, shape),
        );
        Ok(MetStatements {
            ids: ids?,
            compared,
        })
    }
}

/// Puts the number of a shape's statement behind those that were found.
fn push_number<A: Allocator + Copy>(
    ids: Result<Vec<StmtId, A>, AllocError>,
    shape: &Shape,
) -> Result<Vec<StmtId, A>, AllocError>
    ensures { IfOk result (λ v. Pushes (λ u. u.items) ids (number_of shape.now) v.items) }
{
    let mut ids = ids?;
    ids.push(StmtId(shape.net))?;
    Ok(ids)
}
