//! Rectangles of macros in database units, of which those that were made last are kept.

ghost use Rattle.std.specs.Prelude.{◌≡◌, ◌<◌, true};
ghost use Rattle.design_model.specs.Views.{rectangle_of};
ghost use Rattle.lef_grammar.specs.Measures.{rectangle_in};
ghost use Rattle.cell_library.specs.Numbers.{IsWithin, rectangle_view};
ghost use Rattle.design_wires.specs.Scales.{units_of};

use cell_library::numbers::MicronRect;
use design_model::geometry::Rect;
use design_wires::scale::Scale;

/// How many slots there are for rectangles.
const SLOTS: usize = 64;

/// A rectangle of a macro, and what it is in database units at a scale.
#[derive(Clone, Copy)]
struct MadeRect {
    scale: Scale,
    rectangle: MicronRect,
    rect: Rect,
    ghost is: { rectangle_of rect ≡ rectangle_in (units_of scale) (rectangle_view rectangle) },
    ghost near: { IsWithin 100000000000 (rectangle_of rect) },
}

/// Whether two rectangles are written alike.
#[inline(always)]
fn are_alike(a: &MicronRect, b: &MicronRect) -> bool
    ensures { result ≡ true → rectangle_view a.now ≡ rectangle_view b.now }
{
    a.from.x == b.from.x && a.from.y == b.from.y && a.to.x == b.to.x && a.to.y == b.to.y
}

impl MadeRect {
    /// A rectangle at a scale.
    fn of(rectangle: MicronRect, scale: Scale) -> MadeRect
        ensures scale { result.scale ≡ scale }
        ensures rectangle { result.rectangle ≡ rectangle }
    {
        MadeRect {
            scale,
            rectangle,
            rect: rectangle.in_units(scale.per_micron()),
        }
    }

    /// Whether it was made of such a rectangle, and at this scale.
    #[inline(always)]
    fn is_of(&self, rectangle: &MicronRect, scale: Scale) -> bool
        ensures { result ≡ true → rectangle_of self.now.rect ≡ rectangle_in (units_of scale) (rectangle_view rectangle.now) }
    {
        self.scale.per_micron() == scale.per_micron() && are_alike(&self.rectangle, rectangle)
    }
}

/// The slot of a rectangle. Those of one macro mostly have different ones.
#[inline(always)]
fn slot_of(rectangle: &MicronRect) -> usize
    ensures { result < 64 }
{
    let x = rectangle.from.x.value.unsigned_abs();
    let y = rectangle.from.y.value.unsigned_abs();
    let far = rectangle.to.x.value.unsigned_abs();
    let mixed = x.wrapping_mul(5) ^ y.wrapping_mul(7) ^ far.wrapping_mul(11);
    (mixed ^ mixed >> 6) as usize % SLOTS
}

/// Rectangles that were made last, in slots by their numbers. One that comes again, as those of a macro's pins do with each of its
/// components, is made without a division.
#[derive(Drop)]
pub(crate) struct LastRects {
    slots: [Option<MadeRect>; SLOTS],
}

impl LastRects {
    /// No rectangles yet.
    pub(crate) fn new() -> LastRects {
        LastRects {
            slots: [None; SLOTS],
        }
    }

    /// A rectangle of a macro in database units.
    #[inline(always)]
    pub(crate) fn in_units(&mut self, rectangle: MicronRect, scale: Scale) -> Rect
        ensures units { rectangle_of result ≡ rectangle_in (units_of scale) (rectangle_view rectangle) }
        ensures bound { IsWithin 100000000000 (rectangle_of result) }
    {
        let slot = slot_of(&rectangle);
        if let Some(made) = self.slots[slot] {
            if made.is_of(&rectangle, scale) {
                return made.rect;
            }
        }
        let made = MadeRect::of(rectangle, scale);
        self.slots[slot] = Some(made);
        made.rect
    }
}
