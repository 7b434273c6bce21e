//! The entries of a design by their names (LEF/DEF 5.8 Language Reference, "DEF Syntax").

ghost use Rattle.std.specs.Prelude.{◌≡◌, IfOk, IfSome, OnOk, Some, is_some};
ghost use Rattle.std.specs.List.{filter_map};
ghost use Rattle.std.specs.Option.{option_map};
ghost use Rattle.def_grammar.specs.Records.{entry_of};
ghost use Rattle.design_model.specs.declared.mode.Section.TheVariants.{Components};
ghost use Rattle.def_reader.specs.EntryViews.{entry_view};
ghost use Rattle.entry_rules.specs.EntryNames.{entry_named};
ghost use Rattle.entry_rules.specs.Unknown.{component_named, stands_in};
ghost use Rattle.entry_rules.specs.ViaLayers.{def_rule_named, def_via_named, rule_of_entry, via_of_entry};
ghost use Rattle.def_reader.specs.StatementViews.{records_view};
ghost use Rattle.design_names.specs.NameViews.{component_of_entry, lent_component, lent_entry, lent_rule, lent_via};
ghost use Rattle.design_names.specs.Apart.{are_apart, is_known};
ghost use Rattle.design_names.specs.Tables.{Adds};

use crate::noted_places::NotedPlaces;
use def_reader::entry::Entry;
use def_reader::statement::Statement;
use design_model::mode::Section;
use indexmap::IndexMap;
use name_keys::EntryName;
use place_parts::component_parts::ComponentParts;
use std::alloc::{AllocError, Allocator, Global};
use std::hash::RandomState;
use std::marker::Model;
use via_parts::rules::RuleParts;
use via_parts::vias::ViaParts;

/// The first entry of each section and name.
type Table<'r, 't, A> = IndexMap<EntryName<'t>, &'r Entry<'t>, RandomState, A>;

/// The statements of a design, with its entries by their names.
pub struct Names<'r, 't, A: Allocator = Global> {
    records: &'r [Statement<'t>],
    table: Table<'r, 't, A>,
    /// Whether no entry has the section and the name of an earlier one.
    are_apart: bool,
}

// (written out, so that who owns this is proved over one call)
impl<A: Allocator> Drop for Names<'_, '_, A> {
    fn drop(self) {
        let Names {
            records: _,
            table: _,
            are_apart: _,
        } = self;
    }
}

impl<'r, 't, A: Allocator> Model for Names<'r, 't, A> {
    ghost use Rattle.std.specs.Prelude.{List};
    ghost use Rattle.def_grammar.specs.Records.{Record};
    ghost use Rattle.def_reader.specs.StatementViews.{records_view};
    ghost use Rattle.design_names.specs.NameViews.{lent_entry};
    ghost use Rattle.design_names.specs.Apart.{IsIndex};

    ghost Value = { List Record };

    ghost view = { λ n. records_view n.records.now };

    ghost invariant = { λ n. IsIndex lent_entry n.table.entries n.are_apart (records_view n.records.now) };
}

/// Adds an entry to a table, unless it has no name or its name is taken. Says whether it is taken.
fn add<'r, 't, A: Allocator + Copy>(
    table: &mut Table<'r, 't, A>,
    entry: &'r Entry<'t>,
) -> Result<bool, AllocError>
    ensures added { OnOk result (Adds lent_entry table.old.entries table.new.entries (entry_view entry.entry.now)) }
    ensures is_taken { IfOk result (λ is_taken. is_taken ≡ is_known lent_entry table.old.entries (entry_view entry.entry.now)) }
{
    let Some(name) = entry.name() else {
        return Ok(false);
    };
    let word = entry.section().word();
    let key = EntryName { word, name };
    // A name is nearly always new: one look-up puts it there, and a second one puts back the entry that came first.
    if let Some(first) = table.insert(key, entry)? {
        table.insert(key, first)?;
        return Ok(true);
    }
    Ok(false)
}

/// The component that an entry is.
fn component_of<'r, 't>(entry: &'r Entry<'t>) -> Option<&'r ComponentParts<'t>>
    ensures { option_map lent_component result ≡ component_of_entry (entry_view entry.entry.now) }
{
    match entry {
        Entry::Component(parts) => Some(parts),
        _ => None,
    }
}

/// The via that an entry is.
fn via_of<'r, 't>(entry: &'r Entry<'t>) -> Option<&'r ViaParts<'t>>
    ensures { option_map lent_via result ≡ via_of_entry (entry_view entry.entry.now) }
{
    match entry {
        Entry::Via(parts) => Some(parts),
        _ => None,
    }
}

/// The rule that an entry is.
fn rule_of<'r, 't>(entry: &'r Entry<'t>) -> Option<&'r RuleParts<'t>>
    ensures { option_map lent_rule result ≡ rule_of_entry (entry_view entry.entry.now) }
{
    match entry {
        Entry::Rule(parts) => Some(parts),
        _ => None,
    }
}

/// The names of the statements of a text. One pass over them makes a table of their entries.
pub fn names_of<'r, 't, A: Allocator + Copy>(
    alloc: A,
    hash_builder: RandomState,
    records: &'r [Statement<'t>],
) -> Result<Names<'r, 't, A>, AllocError>
    ensures { IfOk result (λ names. names ≡ records_view records.entry.now) }
{
    let mut table: Table<'r, 't, A> = IndexMap::with_capacity_and_hasher(
        alloc,
        records.len(),
        hash_builder,
    )?;
    let mut are_apart = true;
    for statement in records {
        if let Statement::Entry(entry) = statement {
            let is_taken = add(&mut table, entry)?;
            are_apart &= !is_taken;
        }
    }
    Ok(Names {
        records,
        table,
        are_apart,
    })
}

impl<'r, 't, A: Allocator + Copy> Names<'r, 't, A> {
    /// What the names are hashed with.
    pub fn hash_builder(&self) -> RandomState {
        *self.table.hasher()
    }

    /// The statements of the text, in their order.
    pub fn records(&self) -> &'r [Statement<'t>]
        ensures { records_view result.now ≡ self.now }
    {
        self.records
    }

    /// Whether no two entries of one section have one name. It takes no pass over them.
    pub fn are_apart(&self) -> bool
        ensures { result ≡ are_apart (filter_map entry_of self.now) }
    {
        self.are_apart
    }

    /// The first entry of this section with this name.
    pub fn entry(&self, section: Section, name: &[u8]) -> Option<&'r Entry<'t>>
        ensures { option_map lent_entry result ≡ entry_named self.now section name.now }
    {
        let word = section.word();
        self.table.get(EntryName { word, name }).copied()
    }

    /// Whether an entry of this section has this name.
    #[tactic(auto, using(crate::proofs::NameLemmas::stands_where_named))]
    pub fn has(&self, section: Section, name: &[u8]) -> bool
        ensures { result ≡ stands_in self.now section name.now }
    {
        self.entry(section, name).is_some()
    }

    /// The first component with this name.
    #[tactic(auto, using(crate::proofs::NameLemmas::component_picked))]
    pub fn component(&self, name: &[u8]) -> Option<&'r ComponentParts<'t>>
        ensures gives { option_map lent_component result ≡ component_named self.now name.now }
        ensures there { is_some result ≡ stands_in self.now Components name.now }
    {
        component_of(self.entry(Section::Components, name)?)
    }

    /// The entry at a place of the table, if it is the first one of this section with this name.
    #[inline(always)]
    fn entry_at(&self, place: usize, section: Section, name: &[u8]) -> Option<&'r Entry<'t>>
        ensures { IfSome result (λ e. entry_named self.now section name.now ≡ Some (lent_entry e)) }
    {
        let (key, entry) = self.table.get_index(place)?;
        if key.name == name && key.word == section.word() {
            Some(*entry)
        } else {
            None
        }
    }

    /// The first entry of this section with this name, whose place is noted.
    #[inline(never)]
    fn found(&self, section: Section, name: &[u8], noted: &mut NotedPlaces) -> Option<&'r Entry<'t>>
        ensures { option_map lent_entry result ≡ entry_named self.now section name.now }
    {
        let word = section.word();
        let (place, _, entry) = self.table.get_full(EntryName { word, name })?;
        noted.note(name, place);
        Some(*entry)
    }

    /// The first component with this name. It is looked for where one with such a name was found last, and so mostly known without a
    /// hash where names come again and again.
    #[inline(always)]
    pub fn component_near(
        &self,
        name: &[u8],
        noted: &mut NotedPlaces,
    ) -> Option<&'r ComponentParts<'t>>
        ensures { option_map lent_component result ≡ component_named self.now name.now }
    {
        let place = noted.place_for(name);
        if let Some(entry) = self.entry_at(place, Section::Components, name) {
            return component_of(entry);
        }
        component_of(self.found(Section::Components, name, noted)?)
    }

    /// The first via with this name.
    #[tactic(auto, using(crate::proofs::NameLemmas::via_picked))]
    pub fn via(&self, name: &[u8]) -> Option<&'r ViaParts<'t>>
        ensures { option_map lent_via result ≡ def_via_named self.now name.now }
    {
        via_of(self.entry(Section::Vias, name)?)
    }

    /// The first nondefault rule with this name.
    #[tactic(auto, using(crate::proofs::NameLemmas::rule_picked))]
    pub fn rule(&self, name: &[u8]) -> Option<&'r RuleParts<'t>>
        ensures { option_map lent_rule result ≡ def_rule_named self.now name.now }
    {
        rule_of(self.entry(Section::NonDefaultRules, name)?)
    }
}
