//! Tiles: the order of shapes by them, and the tiles near a rectangle.

ghost use Rattle.std.specs.Prelude.{◌≡◌, ◌<◌, ◌-◌, ◌/◌, ◌↔◌, IsTrue};
ghost use Rattle.shape_index.specs.Tiles.{key, least_size, offset, size_of};
ghost use Rattle.shape_index.specs.TileOrder.{Before, Leads, OneTile};

use crate::shape::Shape;
use design_model::geometry::Rect;
use design_model::identifier::{LayerId, ShapeId};

/// The largest size: two such tiles side by side hold every coordinate.
const LARGEST: u64 = 9223372036854775808;

/// Where a shape stands among others: by its layer, its size, the tile of its lower left corner, and its number. Keys are
/// compared in this order of their fields.
#[derive(Clone, Copy, PartialEq, Eq, PartialOrd, Ord)]
pub(crate) struct TileKey {
    pub(crate) layer: usize,
    pub(crate) size: u64,
    pub(crate) column: u64,
    pub(crate) row: u64,
    pub(crate) id: usize,
}

/// What a search does at a tile.
#[derive(Clone, Copy)]
pub(crate) enum Step {
    /// It looks at the shape there.
    Here,
    /// It goes on from a later place.
    From(TileKey),
    /// It ends.
    End,
}

/// The tiles near a range of coordinates.
#[derive(Clone, Copy)]
struct NearTiles {
    first: u64,
    last: u64,
}

/// How far a coordinate is from the lowest that there is.
fn offset(z: i64) -> u64
    ensures { result ≡ offset z }
{
    z.abs_diff(i64::MIN)
}

/// The least power of two that isn't below a side.
fn least_size(side: u64) -> u64
    ensures value { result ≡ least_size side }
    ensures some { 0 < result }
{
    if side > LARGEST {
        LARGEST
    } else {
        side.next_power_of_two()
    }
}

/// The size of the tiles that a rectangle stands under.
fn size_of(rect: &Rect) -> u64
    ensures value { result ≡ size_of rect.now }
    ensures some { 0 < result }
{
    let width = offset(rect.x2).saturating_sub(offset(rect.x1));
    let height = offset(rect.y2).saturating_sub(offset(rect.y1));
    least_size(width.max(height))
}

/// Where a shape stands in the order of tiles.
pub(crate) fn key_of(id: ShapeId, shape: &Shape) -> TileKey
    ensures value { result ≡ key (id, shape.now) }
    ensures some { 0 < result.size }
{
    let size = size_of(&shape.rect);
    TileKey {
        layer: shape.layer.0,
        size,
        column: offset(shape.rect.x1) / size,
        row: offset(shape.rect.y1) / size,
        id: id.0,
    }
}

/// Whether one stands before another in the order of tiles.
pub(crate) fn is_before(a: &TileKey, b: &TileKey) -> bool
    ensures { IsTrue result ↔ Before a.now b.now }
{
    a < b
}

/// Whether two keys are of one tile.
pub(crate) fn are_of_one_tile(a: &TileKey, b: &TileKey) -> bool
    ensures { IsTrue result ↔ OneTile a.now b.now }
{
    a.layer == b.layer && a.size == b.size && a.column == b.column && a.row == b.row
}

/// Whether a shape stands before a key in the order of tiles. Its tile is computed only where layer and size don't tell.
pub(crate) fn is_shape_before(id: ShapeId, shape: &Shape, next: &TileKey) -> bool
    ensures { IsTrue result ↔ Before (key (id, shape.now)) next.now }
{
    if shape.layer.0 != next.layer {
        return shape.layer.0 < next.layer;
    }
    let size = size_of(&shape.rect);
    if size != next.size {
        return size < next.size;
    }
    is_before(&key_of(id, shape), next)
}

/// The tiles of a size near a range of coordinates.
fn near_tiles(low: i64, high: i64, size: u64) -> NearTiles
    requires { 0 < size }
    ensures first { result.first ≡ offset low / size - 1 }
    ensures last { result.last ≡ offset high / size }
{
    NearTiles {
        first: (offset(low) / size).saturating_sub(1),
        last: offset(high) / size,
    }
}

/// Before all that stand under a tile.
fn before_tile(layer: usize, size: u64, column: u64, row: u64) -> TileKey
    ensures { result ≡ record { layer = layer; size = size; column = column; row = row; id = 0 } }
{
    TileKey {
        layer,
        size,
        column,
        row,
        id: 0,
    }
}

/// Where a search for what is near a rectangle goes on from a place.
pub(crate) fn next_step(at: &TileKey, layer: LayerId, rect: &Rect) -> Step
    requires { 0 < at.now.size }
    ensures { Leads layer rect.now at.now result }
{
    if at.layer < layer.0 {
        return Step::From(before_tile(layer.0, 0, 0, 0));
    }
    if at.layer > layer.0 {
        return Step::End;
    }
    let columns = near_tiles(rect.x1, rect.x2, at.size);
    let rows = near_tiles(rect.y1, rect.y2, at.size);
    if at.column < columns.first {
        return Step::From(before_tile(at.layer, at.size, columns.first, rows.first));
    }
    if at.column > columns.last {
        return Step::From(before_tile(at.layer, at.size.saturating_add(1), 0, 0));
    }
    if at.row < rows.first {
        return Step::From(before_tile(at.layer, at.size, at.column, rows.first));
    }
    if at.row > rows.last {
        let column = at.column.saturating_add(1);
        return Step::From(before_tile(at.layer, at.size, column, rows.first));
    }
    Step::Here
}
