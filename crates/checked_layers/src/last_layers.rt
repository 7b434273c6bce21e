//! Layers that were looked up last.

ghost use Rattle.std.specs.Prelude.{◌≡◌, ◌<◌, true, IfSome};
ghost use Rattle.std.specs.Option.{option_map};
ghost use Rattle.checked_layers.specs.CheckedLayers.{checked_place};
ghost use Rattle.checked_layers.specs.LastLayers.{IsFound};

use crate::by_name::checked_layer;
use cell_library::library::Library;
use design_model::identifier::LayerId;
use std::alloc::{Allocator, Global};
use std::marker::Model;

/// How many slots there are for layers.
const SLOTS: usize = 16;

/// A library, and those of its layers of TYPE ROUTING or CUT that were looked up last, in slots by their names. One that is looked
/// up again is known by its name, without a hash.
#[derive(Drop)]
pub struct LastLayers<'a, 'l, A: Allocator = Global> {
    library: &'a Library<'l, A>,
    slots: [Option<LayerId>; SLOTS],
}

impl<'a, 'l, A: Allocator> Model for LastLayers<'a, 'l, A> {
    ghost use Rattle.lef_grammar.specs.Library.{Library as TheLibrary};
    ghost use Rattle.checked_layers.specs.LastLayers.{AreFound};

    ghost Value = { TheLibrary };

    ghost view = { λ l. l.library.now };

    ghost invariant = { λ l. AreFound l.library.now.layers l.slots };
}

/// The slot of a name. Names of consecutive layers mostly have different ones.
#[inline(always)]
fn slot_of(name: &[u8]) -> usize
    ensures { result < 16 }
{
    let (Some(first), Some(last)) = (name.first(), name.last()) else {
        return 0;
    };
    (*first as usize * 5 + *last as usize + name.len() % SLOTS * 4) % SLOTS
}

/// Whether a layer was found that has this name.
#[inline(always)]
fn is_named<A: Allocator + Copy>(
    library: &Library<'_, A>,
    found: Option<LayerId>,
    name: &[u8],
) -> bool
    requires { IfSome found (IsFound library.now.layers) }
    ensures { result ≡ true → option_map (λ l. l.0) found ≡ checked_place library.now.layers name.now }
{
    let Some(layer) = found else {
        return false;
    };
    match library.layer_name(layer) {
        Some(word) => word == name,
        None => false,
    }
}

impl<'a, 'l, A: Allocator + Copy> LastLayers<'a, 'l, A> {
    /// No layers of a library yet.
    pub fn new(library: &'a Library<'l, A>) -> LastLayers<'a, 'l, A>
        ensures { result ≡ library.entry.now }
    {
        LastLayers {
            library,
            slots: [None; SLOTS],
        }
    }

    /// The layer of a name, where it is of TYPE ROUTING or CUT: what `checked_layer` gives.
    #[inline(always)]
    pub fn layer_of(&mut self, name: &[u8]) -> Option<LayerId>
        ensures value { option_map (λ l. l.0) result ≡ checked_place self.old.layers name.now }
        ensures same { self.new ≡ self.old }
    {
        let slot = slot_of(name);
        let last = self.slots[slot];
        if is_named(self.library, last, name) {
            return last;
        }
        let found = checked_layer(self.library, name);
        self.slots[slot] = found;
        found
    }
}
