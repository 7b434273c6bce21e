//! What the pins of one net after the other are found with.

ghost use Rattle.std.specs.Prelude.{◌≡◌};

use crate::last_pins::LastPins;
use crate::last_rects::LastRects;
use crate::seen_pins::SeenPins;
use cell_library::library::Library;
use checked_layers::LastLayers;
use design_names::noted_places::NotedPlaces;
use std::alloc::{Allocator, Global};
use std::hash::RandomState;
use std::marker::Model;

/// What a drawing goes on with from one net to the next: the layers and the pins of macros that were looked up last, both in one
/// library; rectangles of macros that were made last; where components were found last; and the pins of the present net that were seen, with the room for those of the next.
#[derive(Drop)]
pub struct PinWalk<'a, 'l, 't, A: Allocator = Global> {
    pub(crate) layers: LastLayers<'a, 'l, A>,
    pub(crate) pins: LastPins<'a, 'l, 't, A>,
    pub(crate) rects: LastRects,
    pub(crate) noted: NotedPlaces,
    pub(crate) seen: SeenPins<'t, A>,
}

impl<'a, 'l, 't, A: Allocator> Model for PinWalk<'a, 'l, 't, A> {
    ghost use Rattle.std.specs.Prelude.{◌≡◌};
    ghost use Rattle.net_pins.specs.Walking.{Walk};

    ghost Value = { Walk };

    ghost view = { λ w. record { layers = w.layers; seen = w.seen } };

    ghost invariant = { λ w. w.pins ≡ w.layers };
}

impl<'a, 'l, 't, A: Allocator + Copy> PinWalk<'a, 'l, 't, A> {
    /// That of a drawing which has put nothing yet. It takes no memory.
    pub(crate) fn new(
        alloc: A,
        library: &'a Library<'l, A>,
        hash_builder: RandomState,
    ) -> PinWalk<'a, 'l, 't, A>
        ensures { result.layers ≡ library.entry.now }
    {
        PinWalk {
            layers: LastLayers::new(library),
            pins: LastPins::new(alloc, library),
            rects: LastRects::new(),
            noted: NotedPlaces::new(),
            seen: SeenPins::new(alloc, hash_builder),
        }
    }
}
