//! The line of two shapes, and of a shape and a barrier.

ghost use Rattle.std.specs.Prelude.{◌≡◌, ℕ, List, ◌++◌, ◌∷◌, [], OnOk, map};
ghost use Rattle.design_model.specs.Lines.{line_text};
ghost use Rattle.design_model.specs.Order.{greater, lesser};
ghost use Rattle.design_model.specs.Views.{rectangle_of};
ghost use Rattle.connection_rules.specs.NetLines.{corners_of, is_barred, routeblock_of, short_of};
ghost use Rattle.net_touches.specs.Barriers.{barrier_view, name_at};
ghost use Rattle.net_touches.specs.ShapeViews.{shape_view};

use crate::barrier::Barrier;
use crate::shape::ShapeOfNet;
use design_model::diagnostic::DiagKind;
use design_model::geometry::Rect;
use design_model::identifier::LayerId;
use orient_geom::{common, overlaps};
use report_lines::Lines;
use std::alloc::{AllocError, Allocator};

/// The name that comes first by its bytes.
fn lesser<'t>(a: &'t [u8], b: &'t [u8]) -> &'t [u8]
    ensures { result.now ≡ lesser a.entry.now b.entry.now }
{
    if b.cmp(a).is_lt() { b } else { a }
}

/// The name that comes last by its bytes.
fn greater<'t>(a: &'t [u8], b: &'t [u8]) -> &'t [u8]
    ensures { result.now ≡ greater a.entry.now b.entry.now }
{
    if b.cmp(a).is_lt() { a } else { b }
}

/// The name of a layer, which is empty where there is none of this place.
fn layer_name<'t>(names: &[&'t [u8]], layer: LayerId) -> &'t [u8]
    ensures { result.now ≡ name_at (map (λ w. w.now) names.now) layer.0 }
{
    match names.get(layer.0) {
        Some(name) => name,
        None => b"",
    }
}

/// Puts a line of these words and of the corners of a rectangle.
fn put_at<A: Allocator + Copy>(
    kind: DiagKind,
    words: &[&[u8]],
    rect: &Rect,
    lines: &mut Lines<A>,
) -> Result<(), AllocError>
    ensures { OnOk result (lines.new ≡ lines.old ++ line_text kind (map (λ w. w.now) words.now) (corners_of (rectangle_of rect.now)) ∷ []) }
{
    lines.put(kind, words, &[rect.x1, rect.y1, rect.x2, rect.y2])
}

/// Puts the line on two shapes, where they are of two nets and touch: the lesser name first, and what they share.
pub fn put_short<A: Allocator + Copy>(
    first: &ShapeOfNet<'_, '_>,
    second: &ShapeOfNet<'_, '_>,
    names: &[&[u8]],
    lines: &mut Lines<A>,
) -> Result<(), AllocError>
    ensures { OnOk result (lines.new ≡ lines.old ++ short_of (name_at (map (λ w. w.now) names.now)) (shape_view first.now) (shape_view second.now)) }
{
    let (a, b) = (first.head.name, second.head.name);
    let layer = first.shape.layer;
    if layer != second.shape.layer || a == b {
        return Ok(());
    }
    let Some(shared) = common(first.shape.rect, second.shape.rect) else {
        return Ok(());
    };
    let words = [lesser(a, b), greater(a, b), layer_name(names, layer)];
    put_at(DiagKind::Short, &words, &shared, lines)
}

/// Whether a shape is drawn and overlaps a rectangle where its layer is blocked, also for its net.
fn is_barred(shape: &ShapeOfNet<'_, '_>, barrier: &Barrier) -> bool
    ensures { (name_of : ℕ → List ℕ) → result ≡ is_barred name_of (shape_view shape.now) (barrier_view barrier.now) }
{
    shape.is_drawn
        && shape.shape.layer == barrier.layer
        && overlaps(&shape.shape.rect, &barrier.rect)
        && !(shape.head.is_power && barrier.spares_power)
}

/// Puts the line on a shape and a barrier, where the shape is drawn and overlaps it: what they share.
pub fn put_routeblock<A: Allocator + Copy>(
    shape: &ShapeOfNet<'_, '_>,
    barrier: &Barrier,
    names: &[&[u8]],
    lines: &mut Lines<A>,
) -> Result<(), AllocError>
    ensures { OnOk result (lines.new ≡ lines.old ++ routeblock_of (name_at (map (λ w. w.now) names.now)) (shape_view shape.now) (barrier_view barrier.now)) }
{
    if !is_barred(shape, barrier) {
        return Ok(());
    }
    let Some(shared) = common(shape.shape.rect, barrier.rect) else {
        return Ok(());
    };
    let words = [shape.head.name, layer_name(names, barrier.layer)];
    put_at(DiagKind::RouteBlock, &words, &shared, lines)
}
