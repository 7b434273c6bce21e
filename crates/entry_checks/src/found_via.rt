//! Vias that were looked up, kept since the next one in a path mostly has the name of one of them.

ghost use Rattle.std.specs.Prelude.{◌≡◌, IfSome};
ghost use Rattle.std.specs.Option.{option_map};
ghost use Rattle.wire_rules.specs.Paths.{other_layer};
ghost use Rattle.wire_shapes.specs.RuleViews.{via_on_view};
ghost use Rattle.entry_checks.specs.Definitions.{Definitions, vias_in};
ghost use Rattle.entry_checks.specs.FoundVias.{AreFound, IsFound};

use crate::joined_layers::JoinedLayers;
use crate::known::Known;
use crate::name_slot::{SLOTS, slot_of};
use lefdef_tokens::is_word;
use wire_shapes::ViaOn;

/// A via by its name, with the layers that it joins, if there is one.
#[derive(Clone, Copy)]
struct FoundVia<'a> {
    name: &'a [u8],
    joined: Option<JoinedLayers<'a>>,
}

/// Vias that were asked for: of those in one slot, the last.
#[derive(Drop)]
pub(crate) struct FoundVias<'a> {
    slots: [Option<FoundVia<'a>>; SLOTS],
}

impl<'a> FoundVia<'a> {
    /// What it does where a path is on a layer.
    fn via_on(self, layer: &[u8]) -> ViaOn<'a>
        ensures { (d : Definitions) → IsFound d self.entry → via_on_view result ≡ option_map (other_layer layer.now) (vias_in d self.entry.name.now) }
    {
        match self.joined {
            Some(joined) => joined.via_on(layer),
            None => ViaOn::Unknown,
        }
    }
}

/// A via, if it has this name.
fn if_named<'a>(found: Option<FoundVia<'a>>, name: &[u8]) -> Option<FoundVia<'a>>
    ensures found { (d : Definitions) → IfSome found.entry (IsFound d) → IfSome result (IsFound d) }
    ensures name { IfSome result (λ via. via.name.now ≡ name.now) }
{
    let via = found?;
    if is_word(via.name, name) {
        Some(via)
    } else {
        None
    }
}

/// The via of a name.
fn via_named<'a, K: Known>(known: &'a K, name: &'a [u8]) -> FoundVia<'a>
    ensures found { IsFound (K.defined known.entry.now) result }
    ensures name { result.name.now ≡ name.entry.now }
{
    FoundVia {
        name,
        joined: known.joined_layers(name),
    }
}

impl<'a> FoundVias<'a> {
    /// No vias.
    pub(crate) fn new() -> FoundVias<'a>
        ensures { (d : Definitions) → AreFound d result }
    {
        FoundVias {
            slots: [None; SLOTS],
        }
    }

    /// What the via of a name does where a path is on a layer. It is looked up where it isn't one of these.
    pub(crate) fn via_on<K: Known>(
        &mut self,
        known: &'a K,
        name: &'a [u8],
        layer: &[u8],
    ) -> ViaOn<'a>
        requires { AreFound (K.defined known.now) self.old }
        ensures value { via_on_view result ≡ option_map (other_layer layer.now) (vias_in (K.defined known.entry.now) name.entry.now) }
        ensures found { AreFound (K.defined known.entry.now) self.new }
    {
        let slot = slot_of(name);
        if let Some(via) = if_named(self.slots[slot], name) {
            return via.via_on(layer);
        }
        let via = via_named(known, name);
        self.slots[slot] = Some(via);
        via.via_on(layer)
    }
}
