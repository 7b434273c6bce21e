//! What edits look up in a text that reads: its statements by what they are and name. `LookUps` is what answers; the functions are what
//! edits ask by it, and what they ask of the library.

ghost use Rattle.std.specs.Prelude.{◌≡◌, ◌≤◌, ℕ, length, not, List, Ok, IfSome, IsOk};
ghost use Rattle.std.specs.List.{filter_map, list_any};
ghost use Rattle.std.specs.Option.{option_map};
ghost use Rattle.design_model.specs.declared.mode.Section.TheVariants.{Pins, SpecialNets};
ghost use Rattle.statement_model.specs.Form.{spell};
ghost use Rattle.def_grammar.specs.Components.{component_form};
ghost use Rattle.def_grammar.specs.Located.{component_at, entry_at, located};
ghost use Rattle.def_grammar.specs.Records.{entry_of, read_def, Record};
ghost use Rattle.entry_rules.specs.Unknown.{stands_in};
ghost use Rattle.edit_rules.specs.ComponentEdits.{is_known_macro};
ghost use Rattle.edit_rules.specs.Edits.{lent};
ghost use Rattle.edit_rules.specs.NetEdits.{disconnect_from, has_pin, is_pin, lists, section_of_net, unroute_all};
ghost use Rattle.edit_rules.specs.SectionEdits.{entries_in, is_end, is_header, is_unknown_layer, lacks, lists_of, tokens_where};
ghost use Rattle.lefdef_tokens.specs.Views.{pieces_of, words_of};
ghost use Rattle.place_parts.specs.ComponentViews.{component_view};
ghost use Rattle.def_reader.specs.EntryViews.{EntryAt};
ghost use Rattle.def_reader.specs.Lent.{StatementAt};
ghost use Rattle.def_reader.specs.StatementViews.{record_view};
ghost use Rattle.def_splice.specs.LookupViews.{of_entry};
ghost use Rattle.def_splice.specs.Lying.{lying_component, lying_statement, lying_tokens, LiesIn};
ghost use Rattle.def_splice.specs.NetViews.{entry_seen, entry_with, listing, macro_of, names_pin};

use crate::lying::Lying;
use crate::names::is_name_text;
use crate::terminals::lists;
use cell_library::library::Library;
use def_reader::entry::Entry;
use def_reader::statement::Statement;
use design_model::mode::Section;
use edit_laws::statements::same_keys_are_once;
use lefdef_tokens::is_word;
use place_parts::component_parts::ComponentParts;
use statement_reader::laws::records_are_read;
use std::alloc::Allocator;

/// What answers of a text that reads. A statement comes with its tokens, over bytes that lie in the text and need be no more than the
/// statement's own.
pub trait LookUps {
    ghost text: { Self → List ℕ };

    /// How many bytes the text has.
    fn len(&self) -> usize
        ensures { result ≡ length (text self.now) };

    /// The entry of a component of this name.
    fn component(&self, name: &[u8]) -> Option<(ComponentParts<'_>, Lying<'_>)>
        requires { IsOk (read_def (text self.now)) }
        ensures gives { (design : List Record) → read_def (text self.now) ≡ Ok design → option_map lying_component result ≡ component_at name.now (located (text self.now) design) }
        ensures spelled { IfSome result (λ x. words_of x.1.tokens ≡ spell component_form (component_view x.0)) }
        ensures lies { IfSome result (λ x. LiesIn (text self.now) x.1) };

    /// The entry of this name in a section.
    fn entry(&self, section: Section, name: &[u8]) -> Option<(Statement<'_>, Lying<'_>)>
        requires { IsOk (read_def (text self.now)) }
        ensures gives { (design : List Record) → read_def (text self.now) ≡ Ok design → option_map lying_statement result ≡ entry_at section name.now (located (text self.now) design) }
        ensures lent { IfSome result (λ x. StatementAt (pieces_of x.1.tokens) x.0) }
        ensures lies { IfSome result (λ x. LiesIn (text self.now) x.1) };

    /// The header of a section.
    fn header(&self, section: Section) -> Option<Lying<'_>>
        requires { IsOk (read_def (text self.now)) }
        ensures gives { (design : List Record) → read_def (text self.now) ≡ Ok design → option_map lying_tokens result ≡ tokens_where (is_header section) (located (text self.now) design) }
        ensures lies { IfSome result (λ x. LiesIn (text self.now) x) };

    /// The `END` of a section.
    fn end(&self, section: Section) -> Option<Lying<'_>>
        requires { IsOk (read_def (text self.now)) }
        ensures gives { (design : List Record) → read_def (text self.now) ≡ Ok design → option_map lying_tokens result ≡ tokens_where (is_end section) (located (text self.now) design) }
        ensures lies { IfSome result (λ x. LiesIn (text self.now) x) };

    /// How many entries a section has.
    fn entries_in(&self, section: Section) -> usize
        requires { IsOk (read_def (text self.now)) }
        ensures gives { (design : List Record) → read_def (text self.now) ≡ Ok design → result ≡ length (entries_in section design) }
        ensures few { result ≤ length (text self.now) };

    /// Whether an entry of NETS or SPECIALNETS lists a pin of a component by its name.
    fn is_listed(&self, component: &[u8]) -> bool
        requires { IsOk (read_def (text self.now)) }
        ensures { (design : List Record) → read_def (text self.now) ≡ Ok design → result ≡ list_any (lists_of component.now) (filter_map entry_of design) };

    /// Whether an entry of NETS or SPECIALNETS lists this pin of this owner by name.
    fn is_connected(&self, owner: &[u8], pin: &[u8]) -> bool
        requires { IsOk (read_def (text self.now)) }
        ensures { (design : List Record) → read_def (text self.now) ≡ Ok design → result ≡ list_any (lists owner.now pin.now) (filter_map entry_of design) };
}

/// Whether a text has a section.
pub fn has_section<L: LookUps>(lookups: &L, section: Section) -> bool
    requires { IsOk (read_def (L.text lookups.now)) }
    ensures { (design : List Record) → read_def (L.text lookups.now) ≡ Ok design → result ≡ not (lacks section design) }
{
    lookups.header(section).is_some()
}

/// The entry of a net: that in NETS, or else that in SPECIALNETS.
pub fn net_entry<'a, L: LookUps>(lookups: &'a L, name: &[u8]) -> Option<(Statement<'a>, Lying<'a>)>
    requires { IsOk (read_def (L.text lookups.now)) }
    ensures gives { (design : List Record) → read_def (L.text lookups.now) ≡ Ok design → option_map lying_statement result ≡ entry_at (section_of_net unroute_all name.now design) name.now (located (L.text lookups.now) design) }
    ensures lent { IfSome result (λ x. StatementAt (pieces_of x.1.tokens) x.0) }
    ensures lies { IfSome result (λ x. LiesIn (L.text lookups.now) x.1) }
{
    records_are_read::<Statement<'a>>();
    if let Some(found) = lookups.entry(Section::Nets, name) {
        return Some(found);
    }
    lookups.entry(Section::SpecialNets, name)
}

/// Whether a statement is an entry that lists a terminal.
pub fn lists_terminal(statement: &Statement<'_>, owner: &[u8], pin: &[u8]) -> bool
    ensures { result ≡ of_entry (lists owner.now pin.now) (entry_of (record_view statement.now)) }
{
    match statement {
        Statement::Entry(entry) => lists(entry, owner, pin),
        _ => false,
    }
}

/// The entry of a net in SPECIALNETS, where it lists a terminal.
fn special_entry_with<'a, L: LookUps>(
    lookups: &'a L,
    name: &[u8],
    owner: &[u8],
    pin: &[u8],
) -> Option<(Statement<'a>, Lying<'a>)>
    requires { IsOk (read_def (L.text lookups.now)) }
    ensures gives { (design : List Record) → read_def (L.text lookups.now) ≡ Ok design → option_map lying_statement result ≡ listing owner.now pin.now (entry_at SpecialNets name.now (located (L.text lookups.now) design)) }
    ensures lent { IfSome result (λ x. StatementAt (pieces_of x.1.tokens) x.0) }
    ensures lies { IfSome result (λ x. LiesIn (L.text lookups.now) x.1) }
{
    let Some(found) = lookups.entry(Section::SpecialNets, name) else {
        return None;
    };
    if lists_terminal(&found.0, owner, pin) {
        Some(found)
    } else {
        None
    }
}

/// The entry of a net from which a terminal is taken: that in NETS, unless that in SPECIALNETS alone lists it.
pub fn listing_entry<'a, L: LookUps>(
    lookups: &'a L,
    name: &[u8],
    owner: &[u8],
    pin: &[u8],
) -> Option<(Statement<'a>, Lying<'a>)>
    requires { IsOk (read_def (L.text lookups.now)) }
    ensures gives { (design : List Record) → read_def (L.text lookups.now) ≡ Ok design → option_map lying_statement result ≡ entry_at (section_of_net (disconnect_from owner.now pin.now) name.now design) name.now (located (L.text lookups.now) design) }
    ensures lent { IfSome result (λ x. StatementAt (pieces_of x.1.tokens) x.0) }
    ensures lies { IfSome result (λ x. LiesIn (L.text lookups.now) x.1) }
{
    records_are_read::<Statement<'a>>();
    same_keys_are_once();
    let Some(net) = lookups.entry(Section::Nets, name) else {
        return lookups.entry(Section::SpecialNets, name);
    };
    if lists_terminal(&net.0, owner, pin) {
        return Some(net);
    }
    special_entry_with(lookups, name, owner, pin).or(Some(net))
}

/// An entry that was found, with its tokens.
pub fn with_tokens<'t>(found: Option<(Statement<'t>, Lying<'t>)>) -> Option<(Entry<'t>, Lying<'t>)>
    ensures gives { option_map entry_seen result ≡ entry_with (option_map lying_statement found.entry) }
    ensures lent { IfSome found.entry (λ x. StatementAt (pieces_of x.1.tokens) x.0) → IfSome result (λ x. EntryAt (pieces_of x.1.tokens) x.0) }
    ensures lies { (text : List ℕ) → IfSome found.entry (λ x. LiesIn text x.1) → IfSome result (λ x. LiesIn text x.1) }
{
    let Some((statement, tokens)) = found else {
        return None;
    };
    let Some(entry) = statement.entry() else {
        return None;
    };
    Some((entry, tokens))
}

/// Whether the design has a pin of this name.
fn is_design_pin<L: LookUps>(lookups: &L, pin: &[u8]) -> bool
    requires { IsOk (read_def (L.text lookups.now)) }
    ensures { (design : List Record) → read_def (L.text lookups.now) ≡ Ok design → result ≡ stands_in design Pins pin.now }
{
    records_are_read::<Statement<'_>>();
    lookups.entry(Section::Pins, pin).is_some()
}

/// Whether there is a component of this name, its macro is known, and that one has a pin of this name.
fn has_pin<A: Allocator + Copy, L: LookUps>(
    library: &Library<'_, A>,
    lookups: &L,
    component: &[u8],
    pin: &[u8],
) -> bool
    requires { IsOk (read_def (L.text lookups.now)) }
    ensures { (design : List Record) → read_def (L.text lookups.now) ≡ Ok design → result ≡ has_pin pin.now (macro_of library.now design component.now) }
{
    records_are_read::<Statement<'_>>();
    let Some((parts, _)) = lookups.component(component) else {
        return false;
    };
    let Some(cell) = library.macro_of(parts.cell.bytes) else {
        return false;
    };
    cell.pin(pin).is_some()
}

/// Whether these names, if they are names, stand for a pin.
fn names_pin<A: Allocator + Copy, L: LookUps>(
    library: &Library<'_, A>,
    lookups: &L,
    owner: &[u8],
    pin: &[u8],
) -> bool
    requires { IsOk (read_def (L.text lookups.now)) }
    ensures { (design : List Record) → read_def (L.text lookups.now) ≡ Ok design → result ≡ names_pin library.now design owner.now pin.now }
{
    if is_word(owner, b"PIN") {
        return is_design_pin(lookups, pin);
    }
    if is_word(owner, b"VPIN") {
        return false;
    }
    has_pin(library, lookups, owner, pin)
}

/// Whether a net can be connected to this pin of this owner.
pub fn is_pin<A: Allocator + Copy, L: LookUps>(
    library: &Library<'_, A>,
    lookups: &L,
    owner: &[u8],
    pin: &[u8],
) -> bool
    requires { IsOk (read_def (L.text lookups.now)) }
    ensures { (design : List Record) → read_def (L.text lookups.now) ≡ Ok design → result ≡ is_pin library.now design owner.now pin.now }
{
    let are_names = is_name_text(owner) & is_name_text(pin);
    if !are_names {
        return false;
    }
    names_pin(library, lookups, owner, pin)
}

/// Whether a layer is named of which none is known.
pub fn is_unknown_layer<A: Allocator + Copy>(library: &Library<'_, A>, layer: Option<&[u8]>) -> bool
    ensures { result ≡ is_unknown_layer library.now (lent (λ l. l.now) layer.entry) }
{
    match layer {
        Some(name) => !(is_name_text(name) & library.layer_named(name).is_some()),
        None => false,
    }
}

/// Whether a macro of this name is known.
pub fn has_macro<A: Allocator + Copy>(library: &Library<'_, A>, name: &[u8]) -> bool
    ensures { result ≡ is_known_macro library.now name.now }
{
    is_name_text(name) & library.macro_of(name).is_some()
}
