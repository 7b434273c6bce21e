//! Entries of the text of a design by their names, by its tables.

ghost use Rattle.std.specs.Prelude.{◌≡◌, is_some};
ghost use Rattle.std.specs.Option.{option_map};
ghost use Rattle.design_model.specs.declared.mode.Section.TheVariants.{Components};
ghost use Rattle.entry_rules.specs.EntryNames.{entry_named};
ghost use Rattle.entry_rules.specs.Unknown.{component_named, stands_in};
ghost use Rattle.entry_rules.specs.ViaLayers.{def_rule_named, def_via_named, rule_of_entry, via_of_entry};
ghost use Rattle.place_parts.specs.ComponentViews.{component_view};
ghost use Rattle.via_parts.specs.RuleViews.{rule_view};
ghost use Rattle.via_parts.specs.ViaViews.{via_view};
ghost use Rattle.def_reader.specs.EntryViews.{entry_view};
ghost use Rattle.design_names.specs.NameViews.{component_of_entry};
ghost use Rattle.design_text.specs.DesignTexts.{design_of};

use crate::text::DesignText;
use def_reader::entry::Entry;
use def_splice::lookups::LookUps;
use design_model::mode::Section;
use place_parts::component_parts::ComponentParts;
use std::alloc::Allocator;
use via_parts::rules::RuleParts;
use via_parts::vias::ViaParts;

/// The component that an entry is.
fn component_of(said: Entry<'_>) -> Option<ComponentParts<'_>>
    ensures { option_map component_view result ≡ component_of_entry (entry_view said.entry) }
{
    match said {
        Entry::Component(parts) => Some(parts),
        _ => None,
    }
}

/// The via that an entry is.
fn via_of(said: Entry<'_>) -> Option<ViaParts<'_>>
    ensures { option_map via_view result ≡ via_of_entry (entry_view said.entry) }
{
    match said {
        Entry::Via(parts) => Some(parts),
        _ => None,
    }
}

/// The nondefault rule that an entry is.
fn rule_of(said: Entry<'_>) -> Option<RuleParts<'_>>
    ensures { option_map rule_view result ≡ rule_of_entry (entry_view said.entry) }
{
    match said {
        Entry::Rule(parts) => Some(parts),
        _ => None,
    }
}

impl<A: Allocator + Copy> DesignText<A> {
    /// The entry of a section by its name. It alone is read.
    fn named(&self, section: Section, name: &[u8]) -> Option<Entry<'_>>
        ensures { option_map entry_view result ≡ entry_named (design_of self.now) section name.now }
    {
        self.statements_are_known();
        self.design_is_read();
        let Some((statement, _)) = LookUps::entry(self, section, name) else {
            return None;
        };
        statement.entry()
    }
}

impl<A: Allocator + Copy> DesignText<A> {
    /// Whether an entry of this section has this name. No statement is read: the tables have each name that stands.
    pub fn has(&self, section: Section, name: &[u8]) -> bool
        ensures { result ≡ stands_in (design_of self.now) section name.now }
    {
        self.statements_are_known();
        self.design_is_read();
        self.tables.find(section, name).is_some()
    }

    /// The component with this name.
    #[tactic(auto, using(design_names::proofs::NameLemmas::component_picked))]
    pub fn component_named(&self, name: &[u8]) -> Option<ComponentParts<'_>>
        ensures gives { option_map component_view result ≡ component_named (design_of self.now) name.now }
        ensures there { is_some result ≡ stands_in (design_of self.now) Components name.now }
    {
        component_of(self.named(Section::Components, name)?)
    }

    /// The via with this name.
    #[tactic(auto, using(design_names::proofs::NameLemmas::via_picked))]
    pub fn via_named(&self, name: &[u8]) -> Option<ViaParts<'_>>
        ensures { option_map via_view result ≡ def_via_named (design_of self.now) name.now }
    {
        via_of(self.named(Section::Vias, name)?)
    }

    /// The nondefault rule with this name.
    #[tactic(auto, using(design_names::proofs::NameLemmas::rule_picked))]
    pub fn rule_named(&self, name: &[u8]) -> Option<RuleParts<'_>>
        ensures { option_map rule_view result ≡ def_rule_named (design_of self.now) name.now }
    {
        rule_of(self.named(Section::NonDefaultRules, name)?)
    }
}
