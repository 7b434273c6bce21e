//! What a library and a design define (LEF/DEF 5.8 Language Reference, "DEF Syntax").

ghost use Rattle.std.specs.Prelude.{◌≡◌, MatchOption, None};
ghost use Rattle.lef_grammar.specs.Library.{macro_named};
ghost use Rattle.entry_rules.specs.Unknown.{is_lacking};
ghost use Rattle.entry_checks.specs.Definitions.{Definitions, known_in, layers_in};
ghost use Rattle.entry_checks.specs.JoinedLayers.{JoinsThose};
ghost use Rattle.entry_checks.specs.Views.{lacks_if_there};

use crate::joined_layers::JoinedLayers;
use crate::via_layers::joined_layers;
use cell_library::library::Library;
use design_model::mode::Section;
use design_names::names::Names;
use std::alloc::{AllocError, Allocator, Global};

/// What a library and a design define, kind by kind and name by name.
pub trait Known {
    ghost defined: { Self → Definitions };

    fn has_macro(&self, name: &[u8]) -> bool
        ensures { result ≡ (known_in (defined self.now)).macro name.now };

    fn has_region(&self, name: &[u8]) -> bool
        ensures { result ≡ (known_in (defined self.now)).region name.now };

    fn has_site(&self, name: &[u8]) -> bool
        ensures { result ≡ (known_in (defined self.now)).site name.now };

    fn has_layer(&self, name: &[u8]) -> bool
        ensures { result ≡ (known_in (defined self.now)).layer name.now };

    /// A via of either text.
    fn has_via(&self, name: &[u8]) -> bool
        ensures { result ≡ (known_in (defined self.now)).via name.now };

    /// A nondefault rule of either text.
    fn has_rule(&self, name: &[u8]) -> bool
        ensures { result ≡ (known_in (defined self.now)).rule name.now };

    /// An entry of NETS or SPECIALNETS.
    fn has_net(&self, name: &[u8]) -> bool
        ensures { result ≡ (known_in (defined self.now)).net name.now };

    /// A pin of the design.
    fn has_design_pin(&self, name: &[u8]) -> bool
        ensures { result ≡ (known_in (defined self.now)).design_pin name.now };

    /// Whether the macro of a component is known and has no such pin; `None` where there is no such component.
    fn lacks(&self, component: &[u8], pin: &[u8]) -> Option<bool>
        ensures { result ≡ lacks_if_there (known_in (defined self.now)) component.now pin.now };

    /// The layers that the via of a name joins, if there is one.
    fn joined_layers(&self, via: &[u8]) -> Option<JoinedLayers<'_>>
        ensures { MatchOption result (layers_in (defined self.now) via.now ≡ None) (λ joined. JoinsThose (defined self.now).library joined (layers_in (defined self.now) via.now)) };
}

/// The definitions of a library, and the entries of a design by their names.
#[derive(Copy, Drop)]
pub struct Defined<'a, 'l, 'r, 't, A: Allocator = Global> {
    pub library: &'a Library<'l, A>,
    pub names: &'a Names<'r, 't, A>,
}

// (written out: a derived one copies each field by a call that can fail)
impl<'a, 'l, 'r, 't, A: Allocator + Copy> Clone for Defined<'a, 'l, 'r, 't, A> {
    fn clone(&self) -> Result<Defined<'a, 'l, 'r, 't, A>, AllocError> {
        Ok(*self)
    }
}

/// Whether a macro is known and has no such pin.
pub fn is_lacking<A: Allocator + Copy>(library: &Library<'_, A>, cell: &[u8], pin: &[u8]) -> bool
    ensures { result ≡ is_lacking pin.now (macro_named library.now cell.now) }
{
    match library.macro_of(cell) {
        Some(cell) => cell.pin(pin).is_none(),
        None => false,
    }
}

impl<'a, 'l, 'r, 't, A: Allocator + Copy> Known for Defined<'a, 'l, 'r, 't, A> {
    ghost defined = { λ d. record { library = d.library.now; design = d.names.now } };

    fn has_macro(&self, name: &[u8]) -> bool {
        self.library.macro_of(name).is_some()
    }

    fn has_region(&self, name: &[u8]) -> bool {
        self.names.has(Section::Regions, name)
    }

    fn has_site(&self, name: &[u8]) -> bool {
        self.library.site(name).is_some()
    }

    fn has_layer(&self, name: &[u8]) -> bool {
        self.library.layer_named(name).is_some()
    }

    fn has_via(&self, name: &[u8]) -> bool {
        self.names.via(name).is_some() || self.library.via(name).is_some()
    }

    fn has_rule(&self, name: &[u8]) -> bool {
        self.names.rule(name).is_some() || self.library.rule(name).is_some()
    }

    fn has_net(&self, name: &[u8]) -> bool {
        self.names.has(Section::Nets, name) || self.names.has(Section::SpecialNets, name)
    }

    fn has_design_pin(&self, name: &[u8]) -> bool {
        self.names.has(Section::Pins, name)
    }

    fn lacks(&self, component: &[u8], pin: &[u8]) -> Option<bool> {
        let component = self.names.component(component)?;
        Some(is_lacking(self.library, component.cell.bytes, pin))
    }

    fn joined_layers(&self, via: &[u8]) -> Option<JoinedLayers<'_>> {
        joined_layers(self.library, self.names, via)
    }
}
