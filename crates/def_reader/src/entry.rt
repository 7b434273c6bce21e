//! Entries of sections (LEF/DEF 5.8 Language Reference, "DEF Syntax").

ghost use Rattle.std.specs.Prelude.{◌≡◌, false, IfSome};
ghost use Rattle.std.specs.Option.{option_map};
ghost use Rattle.form_meanings.specs.Words.{Gives};
ghost use Rattle.statement_model.specs.Form.{read};
ghost use Rattle.def_grammar.specs.Records.{entries_form, entry_key, name_of, section_of, skipped_entries};
ghost use Rattle.lefdef_tokens.specs.Views.{IsLater, pieces_of, rest_of, word_view};
ghost use Rattle.def_parts.specs.PointViews.{with_rest};
ghost use Rattle.def_reader.specs.EntryViews.{EntryAt, entry_view, is_place_section};
ghost use Rattle.def_reader.specs.SeenViews.{key_view};

use crate::seen::Key;
use design_model::mode::Section;
use lefdef_tokens::{Cursor, TokenRun};
use place_parts::component_parts::ComponentParts;
use place_parts::groups::{GroupParts, group_at};
use place_parts::pins::{PinParts, pin_at};
use place_parts::read_again::{BlockageAt, RegionAt};
use via_parts::rules::{RuleParts, rule_at};
use via_parts::vias::{ViaParts, via_at};
use wire_parts::nets::{NetEntry, net_entry_at};
use wire_parts::special_nets::{SpecialNetParts, special_net_at};

/// An entry of a section, with parts that borrow the text.
#[derive(Clone, Copy, Drop)]
pub enum Entry<'t> {
    Component(ComponentParts<'t>),
    Pin(PinParts<'t>),
    Region(RegionAt<'t>),
    Group(GroupParts<'t>),
    Blockage(BlockageAt<'t>),
    Net(NetEntry<'t>),
    SpecialNet(SpecialNetParts<'t>),
    Via(ViaParts<'t>),
    Rule(RuleParts<'t>),
    /// An entry of a section whose entries mean nothing, by its tokens between `-` and `;`.
    Skipped(Section, TokenRun<'t>),
}

impl<'t> Entry<'t> {
    /// The section that it stands in.
    pub fn section(&self) -> Section
        ensures { result ≡ section_of (entry_view self.now) }
    {
        match self {
            Entry::Component(_) => Section::Components,
            Entry::Pin(_) => Section::Pins,
            Entry::Region(_) => Section::Regions,
            Entry::Group(_) => Section::Groups,
            Entry::Blockage(_) => Section::Blockages,
            Entry::Net(_) => Section::Nets,
            Entry::SpecialNet(_) => Section::SpecialNets,
            Entry::Via(_) => Section::Vias,
            Entry::Rule(_) => Section::NonDefaultRules,
            Entry::Skipped(section, _) => *section,
        }
    }

    /// The name, which its section has once. Blockages, nets with MUSTJOIN and entries without meaning have none.
    pub fn name(&self) -> Option<&'t [u8]>
        ensures { option_map word_view result ≡ name_of (entry_view self.now) }
    {
        match self {
            Entry::Component(parts) => Some(parts.name.bytes),
            Entry::Pin(parts) => Some(parts.name.bytes),
            Entry::Region(region) => Some(region.parts().name.bytes),
            Entry::Group(parts) => Some(parts.name.bytes),
            Entry::Net(net) => Some(net.name()?.bytes),
            Entry::SpecialNet(parts) => Some(parts.name.bytes),
            Entry::Via(parts) => Some(parts.name.bytes),
            Entry::Rule(parts) => Some(parts.name.bytes),
            Entry::Blockage(_) | Entry::Skipped(_, _) => None,
        }
    }

    /// What of it a text has once.
    pub(crate) fn key(&self) -> Key<'t>
        ensures { key_view result ≡ entry_key (section_of (entry_view self.now)) (name_of (entry_view self.now)) }
    {
        match self.name() {
            Some(name) => Key::Entry(self.section(), name),
            None => Key::Nothing,
        }
    }
}

/// `- any* ;`, in a section whose entries mean nothing
#[tactic(auto, unfolding(def_grammar::specs::Skipped::skipped_form))]
fn skipped_at<'t>(section: Section, cursor: Cursor<'t>) -> Option<(Entry<'t>, Cursor<'t>)>
    ensures gives { Gives (with_rest entry_view) result (read (skipped_entries section) (rest_of cursor.entry)) }
    ensures later { IfSome result (λ x. IsLater cursor.entry x.1) }
    ensures lent { IfSome result (λ x. EntryAt (pieces_of cursor.entry.tokens) x.0) }
{
    let (tokens, cursor) = cursor.key(b"-")?.up_to_semicolon();
    let cursor = cursor.key(b";")?;
    Some((Entry::Skipped(section, tokens), cursor))
}

/// An entry of a section about wires, or of one whose entries mean nothing.
#[tactic(auto, unfolding(def_grammar::specs::Records::entries_form))]
fn wire_entry_at<'t>(section: Section, cursor: Cursor<'t>) -> Option<(Entry<'t>, Cursor<'t>)>
    requires { is_place_section section ≡ false }
    ensures gives { Gives (with_rest entry_view) result (read (entries_form section) (rest_of cursor.entry)) }
    ensures later { IfSome result (λ x. IsLater cursor.entry x.1) }
    ensures lent { IfSome result (λ x. EntryAt (pieces_of cursor.entry.tokens) x.0) }
{
    match section {
        Section::Nets => {
            let (net, cursor) = net_entry_at(cursor)?;
            Some((Entry::Net(net), cursor))
        }
        Section::SpecialNets => {
            let (parts, cursor) = special_net_at(cursor)?;
            Some((Entry::SpecialNet(parts), cursor))
        }
        Section::Vias => {
            let (parts, cursor) = via_at(cursor)?;
            Some((Entry::Via(parts), cursor))
        }
        Section::NonDefaultRules => {
            let (parts, cursor) = rule_at(cursor)?;
            Some((Entry::Rule(parts), cursor))
        }
        _ => skipped_at(section, cursor),
    }
}

/// An entry of a section.
#[tactic(auto, unfolding(def_grammar::specs::Records::entries_form))]
pub fn entry_at<'t>(section: Section, cursor: Cursor<'t>) -> Option<(Entry<'t>, Cursor<'t>)>
    ensures gives { Gives (with_rest entry_view) result (read (entries_form section) (rest_of cursor.entry)) }
    ensures later { IfSome result (λ x. IsLater cursor.entry x.1) }
    ensures lent { IfSome result (λ x. EntryAt (pieces_of cursor.entry.tokens) x.0) }
{
    match section {
        Section::Components => {
            let (parts, cursor) = ComponentParts::read(cursor)?;
            Some((Entry::Component(parts), cursor))
        }
        Section::Pins => {
            let (parts, cursor) = pin_at(cursor)?;
            Some((Entry::Pin(parts), cursor))
        }
        Section::Regions => {
            let (region, cursor) = RegionAt::read(cursor)?;
            Some((Entry::Region(region), cursor))
        }
        Section::Groups => {
            let (parts, cursor) = group_at(cursor)?;
            Some((Entry::Group(parts), cursor))
        }
        Section::Blockages => {
            let (blockage, cursor) = BlockageAt::read(cursor)?;
            Some((Entry::Blockage(blockage), cursor))
        }
        _ => wire_entry_at(section, cursor),
    }
}
