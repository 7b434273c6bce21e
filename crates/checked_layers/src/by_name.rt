//! The layers on which shapes connect (LEF/DEF 5.8 Language Reference, "Layer").

ghost use Rattle.std.specs.Prelude.{◌≡◌};
ghost use Rattle.std.specs.Option.{option_map};
ghost use Rattle.checked_layers.specs.CheckedLayers.{checked_place};

use cell_library::layer::LayerKind;
use cell_library::library::Library;
use design_model::identifier::LayerId;
use std::alloc::Allocator;

/// The layer of a name, where it is of TYPE ROUTING or CUT.
#[tactic(auto, using(crate::proofs::LayerLemmas::places_by_kind))]
#[inline(never)]
pub fn checked_layer<A: Allocator + Copy>(library: &Library<'_, A>, name: &[u8]) -> Option<LayerId>
    ensures { option_map (λ l. l.0) result ≡ checked_place library.now.layers name.now }
{
    match library.layer_named(name)?.kind {
        LayerKind::Routing | LayerKind::Cut => library.layer(name),
        LayerKind::Other => None,
    }
}
