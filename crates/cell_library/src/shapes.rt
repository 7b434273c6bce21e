//! Rectangles on layers, of a via or of a pin.

ghost use Rattle.std.specs.Prelude.{◌≡◌, ◌≤◌, IfOk, filter, length, map};
ghost use Rattle.std.specs.Option.{option_map};
ghost use Rattle.lef_grammar.specs.Definitions.{shapes_by};
ghost use Rattle.lef_reader.specs.Parts.{corners_view};
ghost use Rattle.lef_reader.specs.StatementViews.{lef_view};
ghost use Rattle.lefdef_tokens.specs.Views.{word_view};
ghost use Rattle.cell_library.specs.Numbers.{rectangle_view};
ghost use Rattle.cell_library.specs.Records.{records_view};
ghost use Rattle.cell_library.specs.ShapeViews.{corners_in, is_unchecked_in, layer_in, rectangles_behind, shapes_view};

use crate::numbers::{MicronRect, read_corners};
use design_model::sequence::Sequence;
use lef_reader::point::Corners;
use lef_reader::port_block::{PortRect, PortStatement};
use lef_reader::statement::LefStatement;
use lef_reader::via_block::{ViaShape, ViaStatement};
use std::alloc::{AllocError, Allocator, Global};

/// A layer by its name, and rectangles on it.
#[derive(Drop)]
pub struct LayerShapes<'l, A: Allocator = Global> {
    pub layer: &'l [u8],
    pub rectangles: Sequence<MicronRect, A>,
}

/// The same list, in no more memory than its elements take.
fn fitted<T: Drop, A: Allocator>(items: Sequence<T, A>) -> Sequence<T, A>
    ensures { result ≡ items }
{
    let mut items = items.into_vec();
    items.shrink_to_fit();
    Sequence::from_vec(items)
}

/// The name of the layer that a statement names for what stands behind it.
fn layer_of<'l>(statement: &LefStatement<'l>) -> Option<&'l [u8]>
    ensures { option_map word_view result ≡ layer_in (lef_view statement.now) }
{
    match statement {
        LefStatement::InVia(ViaStatement::Shape(ViaShape::Layer(name, _)))
        | LefStatement::InPort(PortStatement::Layer(name, _)) => Some(name.bytes),
        _ => None,
    }
}

/// The corners of a rectangle.
fn corners_of<'s, 'l>(statement: &'s LefStatement<'l>) -> Option<&'s Corners<'l>>
    ensures { option_map (λ c. corners_view c.now) result ≡ corners_in (lef_view statement.now) }
{
    match statement {
        LefStatement::InVia(ViaStatement::Shape(ViaShape::Rect(corners)))
        | LefStatement::InPort(PortStatement::Rect(PortRect::Corners(corners))) => Some(corners),
        _ => None,
    }
}

/// Whether it has a shape that isn't checked.
fn is_unchecked(statement: &LefStatement<'_>) -> bool
    ensures { result ≡ is_unchecked_in (lef_view statement.now) }
{
    match statement {
        LefStatement::InVia(ViaStatement::Shape(ViaShape::Polygon(_))) => true,
        LefStatement::InPort(statement) => statement.is_unchecked(),
        _ => false,
    }
}

/// The rectangles behind the name of a layer, up to the next.
#[tactic(auto, unfolding(form_meanings::specs::Firsts::front))]
fn rectangles_behind<A: Allocator + Copy>(
    alloc: A,
    behind: &[LefStatement<'_>],
) -> Result<Sequence<MicronRect, A>, AllocError>
    ensures { IfOk result (λ v. map rectangle_view v ≡ rectangles_behind (records_view behind.now)) }
{
    let mut rectangles = Sequence::new(alloc);
    for statement in behind {
        if layer_of(statement).is_some() {
            break;
        }
        if let Some(corners) = corners_of(statement) {
            rectangles.push(read_corners(corners))?;
        }
    }
    Ok(fitted(rectangles))
}

/// The layers of a via or a pin, with their rectangles.
pub(crate) fn shapes_among<'l, A: Allocator + Copy>(
    alloc: A,
    inner: &[LefStatement<'l>],
) -> Result<Sequence<LayerShapes<'l, A>, A>, AllocError>
    ensures { IfOk result (λ v. map shapes_view v ≡ shapes_by layer_in corners_in (records_view inner.now)) }
{
    let mut shapes = Sequence::new(alloc);
    for place in 0..inner.len() {
        if let Some(layer) = layer_of(&inner[place]) {
            let rectangles = rectangles_behind(alloc, &inner[place + 1..])?;
            shapes.push(LayerShapes { layer, rectangles })?;
        }
    }
    Ok(fitted(shapes))
}

/// How many of these statements have shapes that aren't checked.
pub(crate) fn count_unchecked(inner: &[LefStatement<'_>]) -> usize
    ensures count { result ≡ length (filter is_unchecked_in (records_view inner.now)) }
    ensures few { result ≤ length inner.now }
{
    let mut count = 0;
    for statement in inner {
        if is_unchecked(statement) {
            count += 1;
        }
    }
    count
}
