//! What a library and the text of a design define, found by the text's tables.

ghost use Rattle.entry_checks.specs.Definitions.{Definitions};
ghost use Rattle.design_text.specs.DesignTexts.{design_of};

use cell_library::library::Library;
use design_model::mode::Section;
use design_text::text::DesignText;
use entry_checks::joined_layers::JoinedLayers;
use entry_checks::known::{Known, is_lacking};
use entry_checks::via_layers::joined_by;
use std::alloc::{Allocator, Global};

/// A library and the text of a design, of which no statement is read but those that are asked for.
#[derive(Drop)]
pub(crate) struct DefinedText<'a, 'l, A: Allocator + Copy = Global> {
    pub(crate) library: &'a Library<'l, A>,
    pub(crate) text: &'a DesignText<A>,
}

impl<'a, 'l, A: Allocator + Copy> Known for DefinedText<'a, 'l, A> {
    ghost defined = { λ d. record { library = d.library.now; design = design_of d.text.now } };

    fn has_macro(&self, name: &[u8]) -> bool {
        self.library.macro_of(name).is_some()
    }

    fn has_region(&self, name: &[u8]) -> bool {
        self.text.has(Section::Regions, name)
    }

    fn has_site(&self, name: &[u8]) -> bool {
        self.library.site(name).is_some()
    }

    fn has_layer(&self, name: &[u8]) -> bool {
        self.library.layer_named(name).is_some()
    }

    fn has_via(&self, name: &[u8]) -> bool {
        self.text.via_named(name).is_some() || self.library.via(name).is_some()
    }

    fn has_rule(&self, name: &[u8]) -> bool {
        self.text.rule_named(name).is_some() || self.library.rule(name).is_some()
    }

    fn has_net(&self, name: &[u8]) -> bool {
        self.text.has(Section::Nets, name) || self.text.has(Section::SpecialNets, name)
    }

    fn has_design_pin(&self, name: &[u8]) -> bool {
        self.text.has(Section::Pins, name)
    }

    fn lacks(&self, component: &[u8], pin: &[u8]) -> Option<bool> {
        let component = self.text.component_named(component)?;
        Some(is_lacking(self.library, component.cell.bytes, pin))
    }

    fn joined_layers(&self, via: &[u8]) -> Option<JoinedLayers<'_>> {
        match self.text.via_named(via) {
            Some(parts) => joined_by(self.library, Some(&parts), via),
            None => joined_by(self.library, None, via),
        }
    }
}
