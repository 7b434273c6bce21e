//! Layers of TYPE ROUTING, each once, as far as it matters which a via joins (LEF/DEF 5.8 Language Reference, "Vias").

ghost use Rattle.std.specs.Prelude.{◌≡◌, ◌∷◌, [], ℕ, List, Some};
ghost use Rattle.form_meanings.specs.Firsts.{with_first};
ghost use Rattle.lef_grammar.specs.Library.{Library as TheLibrary, layer_named};
ghost use Rattle.wire_rules.specs.Paths.{other_layer};
ghost use Rattle.wire_shapes.specs.RuleViews.{via_on_view};
ghost use Rattle.entry_rules.specs.ViaLayers.{has_routing, routing_layers};
ghost use Rattle.entry_checks.specs.JoinedLayers.{AreNoted, Joins};

use cell_library::layer::LayerKind;
use cell_library::library::Library;
use lefdef_tokens::is_word;
use std::alloc::Allocator;
use wire_shapes::ViaOn;

/// The layers that were noted. More than two join no layer to another, so they needn't be told apart.
#[derive(Clone, Copy)]
pub enum JoinedLayers<'a> {
    Nothing,
    One(&'a [u8]),
    Two(&'a [u8], &'a [u8]),
    More,
}

/// Whether a layer of this name is known and of TYPE ROUTING.
fn is_routing<A: Allocator + Copy>(library: &Library<'_, A>, name: &[u8]) -> bool
    ensures { result ≡ has_routing (layer_named library.now name.now) }
{
    match library.layer_named(name) {
        Some(layer) => matches!(layer.kind, LayerKind::Routing),
        None => false,
    }
}

impl<'a> JoinedLayers<'a> {
    /// These and one more, unless it is among them.
    fn with(self, layer: &'a [u8]) -> JoinedLayers<'a>
        ensures { (layers : List (List ℕ)) → AreNoted self.entry layers → AreNoted result (with_first (λ name. name) layers layer.entry.now) }
    {
        match self {
            JoinedLayers::Nothing => JoinedLayers::One(layer),
            JoinedLayers::One(a) => {
                if is_word(a, layer) {
                    self
                } else {
                    JoinedLayers::Two(a, layer)
                }
            }
            JoinedLayers::Two(a, b) => {
                if is_word(a, layer) || is_word(b, layer) {
                    self
                } else {
                    JoinedLayers::More
                }
            }
            JoinedLayers::More => self,
        }
    }

    /// These and the layer of a name, if it is of TYPE ROUTING.
    pub(crate) fn note<A: Allocator + Copy>(
        self,
        library: &Library<'_, A>,
        name: &'a [u8],
    ) -> JoinedLayers<'a>
        ensures { (left all : List (List ℕ)) → Joins library.now self.entry (name.entry.now ∷ left) all → Joins library.now result left all }
    {
        if is_routing(library, name) {
            self.with(name)
        } else {
            self
        }
    }

    /// What a via of these layers does where a path is on a layer.
    pub fn via_on(self, layer: &[u8]) -> ViaOn<'a>
        ensures { (library : TheLibrary) (all : List (List ℕ)) → Joins library self.entry [] all → via_on_view result ≡ Some (other_layer layer.now (routing_layers library all)) }
    {
        let JoinedLayers::Two(a, b) = self else {
            return ViaOn::Stays;
        };
        if is_word(a, layer) {
            ViaOn::Leads(b)
        } else if is_word(b, layer) {
            ViaOn::Leads(a)
        } else {
            ViaOn::Stays
        }
    }
}
