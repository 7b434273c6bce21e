//! The shapes of a macro's pins, in database units.

ghost use Rattle.std.specs.Prelude.{◌≡◌, ◌<◌, IsFalse, IsTrue, [], flat_map};
ghost use Rattle.cell_library.specs.PinViews.{pins_view};
ghost use Rattle.cell_library.specs.ShapesLeft.{GivesShape, left_of, of_pin, steps_of};

use crate::library::Library;
use crate::named::Named;
use crate::numbers::MicronRect;
use crate::pin::Pin;
use crate::placing::Placing;
use crate::shapes::LayerShapes;
use design_model::geometry::Rect;
use design_model::identifier::LayerId;
use std::alloc::{Allocator, Global};
use std::marker::Model;

/// A rectangle of a pin on a layer of the library, in database units.
#[derive(Clone, Copy)]
pub struct PinShape<'l> {
    pub pin: &'l [u8],
    pub layer: LayerId,
    pub rect: Rect,
}

/// The rectangles that are left of a layer, the layers that are left of their pin, and the pins that are left.
#[derive(Drop)]
struct Walk<'a, 'l, A: Allocator = Global> {
    library: &'a Library<'l, A>,
    placing: Placing,
    pins: &'a Named<'l, Pin<'l, A>, A>,
    next_pin: usize,
    pin: &'l [u8],
    shapes: &'a [LayerShapes<'l, A>],
    layer: LayerId,
    rectangles: &'a [MicronRect],
}

impl<'a, 'l, A: Allocator + Copy> Walk<'a, 'l, A> {
    /// Goes on to the next pin, if there is one.
    fn enter_pin(&mut self) -> bool
        requires no_rectangle { self.old.rectangles.now ≡ [] }
        requires no_layer { self.old.shapes.now ≡ [] }
        ensures same { left_of self.new ≡ left_of self.old }
        ensures none { IsFalse result → left_of self.old ≡ [] }
        ensures fewer { IsTrue result → steps_of self.new < steps_of self.old }
    {
        let Some((name, pin)) = self.pins.at(self.next_pin) else {
            return false;
        };
        self.next_pin += 1;
        self.pin = name;
        self.shapes = pin.shapes.as_slice();
        true
    }

    /// Goes on to the next layer of the pin, or else to the next pin, if there is one.
    fn enter_next(&mut self) -> bool
        requires no_rectangle { self.old.rectangles.now ≡ [] }
        ensures same { left_of self.new ≡ left_of self.old }
        ensures none { IsFalse result → left_of self.old ≡ [] }
        ensures fewer { IsTrue result → steps_of self.new < steps_of self.old }
    {
        if self.shapes.is_empty() {
            return self.enter_pin();
        }
        let shapes = &self.shapes[0];
        self.shapes = &self.shapes[1..];
        if let Some(layer) = self.library.layer(shapes.layer) {
            self.layer = layer;
            self.rectangles = shapes.rectangles.as_slice();
        }
        true
    }

    /// The first shape that is left.
    fn next_shape(&mut self) -> Option<PinShape<'l>>
        ensures { GivesShape (left_of self.old) result (left_of self.new) }
    {
        while self.rectangles.is_empty() {
            if !self.enter_next() {
                return None;
            }
        }
        let (rectangle, later) = self.rectangles.split_first()?;
        self.rectangles = later;
        Some(PinShape {
            pin: self.pin,
            layer: self.layer,
            rect: self.placing.place(*rectangle),
        })
    }
}

/// Gives the shapes of a macro's pins, pin by pin: each rectangle on a layer of the library. It takes no memory.
#[derive(Drop)]
pub struct MacroShapes<'a, 'l, A: Allocator = Global> {
    walk: Walk<'a, 'l, A>,
}

impl<'a, 'l, A: Allocator> Model for MacroShapes<'a, 'l, A> {
    ghost use Rattle.std.specs.Prelude.{List};
    ghost use Rattle.lef_grammar.specs.MacroShapes.{PinShape as TheShape};
    ghost use Rattle.cell_library.specs.ShapesLeft.{left_of};

    ghost Value = { List TheShape };

    ghost view = { λ s. left_of s.walk };
}

impl<'a, 'l, A: Allocator + Copy> MacroShapes<'a, 'l, A> {
    /// The shapes of these pins, which belong to a macro of the library.
    #[tactic(auto, unfolding(lef_grammar::specs::Measures::shapes_in))]
    pub(crate) fn new(
        library: &'a Library<'l, A>,
        pins: &'a Named<'l, Pin<'l, A>, A>,
        placing: Placing,
    ) -> MacroShapes<'a, 'l, A>
        ensures { result ≡ flat_map (of_pin placing.per_micron placing.origin library.now.layers) (pins_view pins.now) }
    {
        MacroShapes {
            walk: Walk {
                library,
                placing,
                pins,
                next_pin: 0,
                pin: b"",
                shapes: &[],
                layer: LayerId(0),
                rectangles: &[],
            },
        }
    }
}

impl<'a, 'l, A: Allocator + Copy> Iterator for MacroShapes<'a, 'l, A> {
    ghost use Rattle.std.specs.Iterator.{item_count};
    ghost use Rattle.cell_library.specs.ShapesLeft.{GivesShape};

    type Item = PinShape<'l>;

    ghost next_gives = { GivesShape };

    ghost remaining = { item_count (λ s. s) };

    fn next(&mut self) -> Option<PinShape<'l>> {
        self.walk.next_shape()
    }
}
