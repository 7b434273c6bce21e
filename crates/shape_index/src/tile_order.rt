//! Shapes in the order of their tiles, and the search among them.

ghost use Rattle.std.specs.Prelude.{◌≡◌, ◌<◌, ◌≤◌, ◌↔◌, IfNone, IfOk, IfSome, IsTrue, ℕ, filter, length, map, option_map, slice_get, slice_index_or};
ghost use Rattle.std.specs.List.{All, Contains, FoldsTo};
ghost use Rattle.slab.specs.Slab.{entries};
ghost use Rattle.shape_index.specs.Shapes.{AreSame, met_by, numbered};
ghost use Rattle.shape_index.specs.Tiles.{key, near_count};
ghost use Rattle.shape_index.specs.TileOrder.{AreAllThere, AreInOrder, Before, IsOrderOf, listed, once};

use crate::gaps::past_run;
use crate::shape::{Shape, are_same, is_met};
use crate::tile::{Step, TileKey, are_of_one_tile, is_shape_before, key_of, next_step};
use design_model::geometry::Rect;
use design_model::identifier::{LayerId, ShapeId};
use slab::Slab;
use std::alloc::{AllocError, Allocator};

/// The numbers of all shapes, in the order of their tiles. Each key is computed once.
pub(crate) fn order_of<A: Allocator + Copy>(
    alloc: A,
    shapes: &Slab<Shape, A>,
) -> Result<Vec<ShapeId, A>, AllocError>
    ensures { IfOk result (λ v. IsOrderOf shapes.now v.items) }
{
    let mut keys = keys_of(alloc, shapes)?;
    keys.sort_unstable();
    keys.iter().map(|key| ShapeId(key.id)).collect(alloc)
}

/// The keys of all shapes, in the order of their numbers.
fn keys_of<A: Allocator + Copy>(
    alloc: A,
    shapes: &Slab<Shape, A>,
) -> Result<Vec<TileKey, A>, AllocError>
    ensures { IfOk result (λ v. v.items ≡ map key (numbered (entries shapes.now))) }
{
    shapes
        .iter()
        .map(|(id, shape)| key_of(ShapeId(id), shape))
        .collect(alloc)
}

/// The entry at a place of an order of numbers.
fn entry_at<'s, A: Allocator + Copy>(
    shapes: &'s Slab<Shape, A>,
    order: &[ShapeId],
    place: usize,
) -> Option<(ShapeId, &'s Shape)>
    requires { AreAllThere shapes.now order.now }
    ensures { option_map (λ e. (e.0, e.1.now)) result ≡ slice_get (listed shapes.now order.now) place }
{
    if place >= order.len() {
        return None;
    }
    let id = order[place];
    match shapes.get(id.0) {
        Some(shape) => Some((id, shape)),
        None => None,
    }
}

/// Whether the entry at a place stands before a key.
fn stands_before<A: Allocator + Copy>(
    shapes: &Slab<Shape, A>,
    order: &[ShapeId],
    place: usize,
    next: &TileKey,
) -> bool
    requires all_there { AreAllThere shapes.now order.now }
    requires within { place < length order.now }
    ensures { (d : _) → IsTrue result ↔ Before (key (slice_index_or (listed shapes.now order.now) place d)) next.now }
{
    match entry_at(shapes, order, place) {
        Some((id, shape)) => is_shape_before(id, shape, next),
        None => false,
    }
}

/// The first place from one on whose entry doesn't stand before a key.
pub(crate) fn first_from<A: Allocator + Copy>(
    shapes: &Slab<Shape, A>,
    order: &[ShapeId],
    from: usize,
    next: &TileKey,
) -> usize
    requires all_there { AreAllThere shapes.now order.now }
    requires in_order { AreInOrder (listed shapes.now order.now) }
    requires within { from ≤ length order.now }
    ensures behind { from ≤ result }
    ensures within { result ≤ length order.now }
    ensures passed { (k : ℕ) (d : _) → from ≤ k → k < result → Before (key (slice_index_or (listed shapes.now order.now) k d)) next.now }
    ensures left { (k : ℕ) (d : _) → result ≤ k → k < length order.now → ¬ Before (key (slice_index_or (listed shapes.now order.now) k d)) next.now }
{
    let mut low = from;
    let mut high = order.len();
    // What is looked for is mostly near: places are tried farther and farther on, until one is too far.
    let mut step = 1usize;
    while low < high {
        let middle = low + step.min((high - low) / 2);
        if stands_before(shapes, order, middle, next) {
            low = middle + 1;
            step = step.saturating_mul(8);
        } else {
            high = middle;
        }
    }
    low
}

/// The number of a shape that is the same as one that is sought, if there is some. They stand under one tile, so the search
/// ends at the first shape of another.
pub(crate) fn find_same<A: Allocator + Copy>(
    shapes: &Slab<Shape, A>,
    order: &[ShapeId],
    sought: &Shape,
) -> Option<ShapeId>
    requires all_there { AreAllThere shapes.now order.now }
    requires in_order { AreInOrder (listed shapes.now order.now) }
    ensures found { IfSome result (λ id. (s : _) × Contains (listed shapes.now order.now) (id, s) × AreSame s sought.now) }
    ensures absent { IfNone result (All (λ e. ¬ AreSame e.1 sought.now) (listed shapes.now order.now)) }
{
    let tile = key_of(ShapeId(0), sought);
    let mut slot = first_from(shapes, order, 0, &tile);
    while let Some((id, shape)) = entry_at(shapes, order, slot) {
        if !are_of_one_tile(&key_of(id, shape), &tile) {
            return None;
        }
        if are_same(shape, sought) {
            return Some(id);
        }
        slot = past_run(order, slot);
    }
    None
}

/// Folds `f` over the shapes on a layer that meet a rectangle, in the order of their tiles. Also answers how many shapes it
/// compared.
pub(crate) fn search<A: Allocator + Copy, B, F: Fn(B, ShapeId, &Shape) -> B>(
    shapes: &Slab<Shape, A>,
    order: &[ShapeId],
    layer: LayerId,
    rect: Rect,
    acc: B,
    f: F,
) -> (B, u64)
    requires callable { F.IsAlwaysCallable f }
    requires all_there { AreAllThere shapes.now order.now }
    requires in_order { AreInOrder (listed shapes.now order.now) }
    ensures folded { FoldsTo (λ a e b. (shown : _) × (shown.now ≡ e.1) × F.post f a e.0 shown b) acc (met_by layer rect (once (listed shapes.now order.now))) result.0 }
    ensures compared { result.1 ≤ near_count layer rect (once (listed shapes.now order.now)) }
    ensures least { length (met_by layer rect (once (listed shapes.now order.now))) ≤ result.1 }
{
    let mut acc = acc;
    let mut compared = 0u64;
    let mut place = 0;
    while let Some((id, shape)) = entry_at(shapes, order, place) {
        place = past_run(order, place);
        match next_step(&key_of(id, shape), layer, &rect) {
            Step::Here => {
                compared = compared.saturating_add(1);
                if is_met(shape, layer, rect) {
                    acc = f(acc, id, shape);
                }
            }
            Step::From(next) => {
                place = first_from(shapes, order, place, &next);
            }
            Step::End => {
                return (acc, compared);
            }
        }
    }
    (acc, compared)
}
