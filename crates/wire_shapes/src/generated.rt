//! The shapes of a via that a VIARULE generates (LEF/DEF 5.8 Language Reference, "Vias").

ghost use Rattle.std.specs.Prelude.{◌≡◌, ◌*◌, ◌≤◌, pos, ◌+ℤ◌, ◌-ℤ◌, IfSome, IsSome, slice_get};
ghost use Rattle.std.specs.Option.{option_map};
ghost use Rattle.design_model.specs.Geometry.{lower_left, upper_right};
ghost use Rattle.design_model.specs.Views.{rectangle_of};
ghost use Rattle.design_model.specs.Ranges.{IsBoxWithin, IsPointWithin, IsSize, IsWithin};
ghost use Rattle.wire_rules.specs.ViaShapes.{centred, cut_box, extent_of, generated_shapes, grown, moved_to};
ghost use Rattle.wire_shapes.specs.GeneratedViews.{IsCutCount, IsGenerated, generated_view};
ghost use Rattle.wire_shapes.specs.RuleViews.{shape_reach, shape_view};

use crate::span::{Span, box_of};
use crate::wiring_makings::{LayerShape, LayerShapes};
use design_model::geometry::{Point, Rect};
use orient_geom::{move_by, span};

/// What a via that a VIARULE generates is made of, in database units.
#[derive(Clone, Copy)]
pub struct GeneratedVia<'t> {
    pub bottom: &'t [u8],
    pub cut: &'t [u8],
    pub top: &'t [u8],
    /// The width and the height of a cut.
    pub cut_size: Point,
    /// The space between two cuts, in x and in y.
    pub cut_spacing: Point,
    pub rows: u32,
    pub columns: u32,
    /// How far a metal goes past the cuts, in x and in y.
    pub bottom_enclosure: Point,
    pub top_enclosure: Point,
    /// Where a metal is moved, and then where everything is.
    pub bottom_offset: Point,
    pub top_offset: Point,
    pub origin: Point,
}

/// So many sizes together.
fn times(count: u64, size: u64) -> u64
    requires count { count ≤ 1000000 }
    requires size { size ≤ 100000000000 }
    ensures is { result ≡ count * size }
    ensures high { result ≤ 100000000000000000 }
{
    count * size
}

/// How long a number of cuts are in a line.
fn extent_of(count: u32, size: i64, space: i64) -> u64
    requires count { IsCutCount count }
    requires size { IsSize size }
    requires space { IsSize space }
    ensures is { pos result ≡ extent_of (pos count) size space }
    ensures high { result ≤ 200000000000000000 }
{
    let count = count as u64;
    let cuts = times(count, size.unsigned_abs());
    let spaces = times(count - 1, space.unsigned_abs());
    cuts + spaces
}

/// A line of a length about 0.
fn centred(length: u64) -> Span
    requires { length ≤ 200000000000000000 }
    ensures low { result.low ≡ (centred (pos length)).0 }
    ensures high { result.high ≡ (centred (pos length)).1 }
    ensures low_near { IsWithin 200000000000000000 result.low }
    ensures high_near { IsWithin 200000000000000000 result.high }
{
    let low = -((length / 2) as i64);
    Span {
        low,
        high: low + length as i64,
    }
}

/// The box round all cuts.
fn cut_box(via: &GeneratedVia<'_>) -> Rect
    requires { IsGenerated via.now }
    ensures is { rectangle_of result ≡ cut_box (generated_view via.now) }
    ensures near { IsBoxWithin 200000000000000000 (rectangle_of result) }
{
    let across = extent_of(via.columns, via.cut_size.x, via.cut_spacing.x);
    let along = extent_of(via.rows, via.cut_size.y, via.cut_spacing.y);
    box_of(centred(across), centred(along))
}

/// A point, moved back.
fn back(at: Point, by: Point) -> Point
    requires at { IsPointWithin 200000000000000000 at }
    requires by { IsPointWithin 100000000000 by }
    ensures { result ≡ record { x = at.x -ℤ by.x; y = at.y -ℤ by.y } }
{
    Point {
        x: at.x - by.x,
        y: at.y - by.y,
    }
}

/// A point, moved.
fn forth(at: Point, by: Point) -> Point
    requires at { IsPointWithin 200000000000000000 at }
    requires by { IsPointWithin 100000000000 by }
    ensures { result ≡ record { x = at.x +ℤ by.x; y = at.y +ℤ by.y } }
{
    Point {
        x: at.x + by.x,
        y: at.y + by.y,
    }
}

/// The lower left corner.
fn lower_left(rect: Rect) -> Point
    ensures { result ≡ lower_left (rectangle_of rect) }
{
    Point {
        x: rect.x1,
        y: rect.y1,
    }
}

/// The upper right corner.
fn upper_right(rect: Rect) -> Point
    ensures { result ≡ upper_right (rectangle_of rect) }
{
    Point {
        x: rect.x2,
        y: rect.y2,
    }
}

/// A rectangle with so much more at each side. Less than nothing may make corners cross, which are then put in order.
fn grown(by: Point, rect: Rect) -> Rect
    requires near { IsBoxWithin 200000000000000000 (rectangle_of rect) }
    requires by { IsPointWithin 100000000000 by }
    ensures is { rectangle_of result ≡ grown by (rectangle_of rect) }
    ensures near { IsBoxWithin 200000100000000000 (rectangle_of result) }
{
    span(back(lower_left(rect), by), forth(upper_right(rect), by))
}

/// The shape of a metal about the cuts.
fn metal(cuts: Rect, enclosure: Point, offset: Point, origin: Point) -> Rect
    requires near { IsBoxWithin 200000000000000000 (rectangle_of cuts) }
    requires enclosure { IsPointWithin 100000000000 enclosure }
    requires offset { IsPointWithin 100000000000 offset }
    requires origin { IsPointWithin 100000000000 origin }
    ensures is { rectangle_of result ≡ moved_to origin (moved_to offset (grown enclosure (rectangle_of cuts))) }
    ensures near { IsBoxWithin shape_reach (rectangle_of result) }
{
    move_by(move_by(grown(enclosure, cuts), offset), origin)
}

/// The shape of a number from 0 to 2: of the bottom metal, of the cuts, of the top metal; after these `None`.
fn generated_shape<'t>(via: &GeneratedVia<'t>, number: u8) -> Option<LayerShape<'t>>
    requires { IsGenerated via.now }
    ensures is { option_map shape_view result ≡ slice_get (generated_shapes (generated_view via.now)) number }
    ensures few { IsSome result → number ≤ 2 }
    ensures near { IfSome result (λ s. IsBoxWithin shape_reach (rectangle_of s.rect)) }
{
    let cuts = cut_box(via);
    match number {
        0 => Some(LayerShape {
            layer: via.bottom,
            rect: metal(cuts, via.bottom_enclosure, via.bottom_offset, via.origin),
        }),
        1 => Some(LayerShape {
            layer: via.cut,
            rect: move_by(cuts, via.origin),
        }),
        2 => Some(LayerShape {
            layer: via.top,
            rect: metal(cuts, via.top_enclosure, via.top_offset, via.origin),
        }),
        _ => None,
    }
}

/// Gives the three shapes of a generated via: of the bottom metal, of the cuts, of the top metal.
#[derive(Clone, Copy, Drop)]
pub struct GeneratedShapes<'t> {
    via: GeneratedVia<'t>,
    given: u8,
    ghost in_range: { IsGenerated via },
}

impl<'t> GeneratedShapes<'t> {
    ghost use Rattle.wire_shapes.specs.GeneratedLeft.{generated_left};

    pub fn new(via: GeneratedVia<'t>) -> GeneratedShapes<'t>
        requires { IsGenerated via }
        ensures { generated_left result ≡ generated_shapes (generated_view via.entry) }
    {
        GeneratedShapes { via, given: 0 }
    }
}

impl<'t> LayerShapes<'t> for GeneratedShapes<'t> {
    ghost use Rattle.wire_shapes.specs.GeneratedLeft.{generated_left};
    ghost use Rattle.wire_shapes.specs.RuleViews.{GivesShape};

    ghost shapes = { generated_left };

    fn next(&mut self) -> Option<LayerShape<'t>>
        ensures { GivesShape (generated_left self.old) result (generated_left self.new) }
    {
        let shape = generated_shape(&self.via, self.given)?;
        self.given += 1;
        Some(shape)
    }
}
