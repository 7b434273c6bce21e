//! The splices of an edit of a section: an entry put last into it, or taken out.

ghost use Rattle.std.specs.Prelude.{◌≡◌, ◌≤◌, ◌<◌, ◌∷◌, [], decimal, length, List, Ok, IfOk, IsOk};
ghost use Rattle.design_model.specs.declared.TheConstants.{MAX_TEXT};
ghost use Rattle.design_model.specs.declared.mode.Section.TheVariants.{Components};
ghost use Rattle.statement_model.specs.Form.{spell};
ghost use Rattle.def_grammar.specs.Components.{component_form};
ghost use Rattle.def_grammar.specs.Located.{located};
ghost use Rattle.def_grammar.specs.Placing.{is_held, placing};
ghost use Rattle.def_grammar.specs.Records.{read_def, Entry, Record};
ghost use Rattle.lefdef_tokens.specs.Views.{pieces_of, words_of};
ghost use Rattle.place_parts.specs.ComponentViews.{component_view};
ghost use Rattle.edit_rules.specs.Edits.{lent, of_section};
ghost use Rattle.edit_rules.specs.Plans.{cuts_for, lowest};
ghost use Rattle.edit_rules.specs.SectionEdits.{add_blockage, add_component, putting, remove_component, taking};
ghost use Rattle.def_splice.specs.SpliceViews.{change_cut, AreCuts, AreInOrder, MakesSplices};
ghost use Rattle.def_splice.specs.LookupViews.{section_plan_of, CountsBefore, MayPut, StandWithin};
ghost use Rattle.def_splice.specs.Lying.{LiesIn, lying_tokens};

use crate::fitting::two_splices;
use crate::lookups::{LookUps, has_macro, has_section, is_unknown_layer};
use crate::lying::Lying;
use crate::names::is_component_name;
use crate::place::{is_held, is_out};
use crate::section_texts::{blockage_text, component_text};
use cell_library::library::Library;
use design_model::MAX_TEXT;
use design_model::mode::Section;
use design_model::sequence::Sequence;
use edit_laws::editing::edits_stand_in_order;
use edit_model::edit::{EditCode, EditRefusal, Splices};
use itoa::Buffer;
use lefdef_tokens::TokenRun;
use place_parts::component_parts::ComponentParts;
use std::alloc::Allocator;

/// The splices that set the number of entries in the header of a section and, in a statement behind it, put bytes in the place of
/// some of the first tokens.
fn counted<A: Allocator + Copy, L: LookUps>(
    alloc: A,
    lookups: &L,
    header: Lying<'_>,
    count: usize,
    statement: Lying<'_>,
    taken: usize,
    put: &[u8],
) -> Result<Splices<A>, EditRefusal>
    requires fits { length (L.text lookups.now) ≤ MAX_TEXT }
    requires head { LiesIn (L.text lookups.now) header }
    requires lies { LiesIn (L.text lookups.now) statement }
    requires some { 0 < length (words_of statement.tokens) }
    requires tokens { taken ≤ length (words_of statement.tokens) }
    requires behind { CountsBefore (change_cut (L.text lookups.now) (lying_tokens statement) 0 taken put.now).lo (lying_tokens header) }
    ensures cuts { AreCuts (L.text lookups.now) (change_cut (L.text lookups.now) (lying_tokens header.entry) 1 1 (decimal count) ∷ change_cut (L.text lookups.now) (lying_tokens statement.entry) 0 taken put.now ∷ []) result }
    ensures order { IfOk result (λ ss. AreInOrder 0 ss (length (L.text lookups.now))) }
{
    let mut buffer = Buffer::new();
    let number = buffer.format(count).as_bytes();
    let first = header.change_splice(alloc, 1, 1, number)?;
    let second = statement.change_splice(alloc, 0, taken, put)?;
    two_splices(alloc, lookups.len(), first, second)
}

/// The splices that put an entry's bytes before the `END` of a section, and its new number of entries into its header. There are
/// none in a text without that section.
fn entry_put<A: Allocator + Copy, L: LookUps>(
    alloc: A,
    lookups: &L,
    section: Section,
    put: &[u8],
) -> Result<Splices<A>, EditRefusal>
    requires fits { length (L.text lookups.now) ≤ MAX_TEXT }
    requires reads { IsOk (read_def (L.text lookups.now)) }
    requires stand { (design : List Record) → read_def (L.text lookups.now) ≡ Ok design → MayPut (L.text lookups.now) design section put.now }
    ensures cuts { (design : List Record) → (said : Entry) → read_def (L.text lookups.now) ≡ Ok design → AreCuts (L.text lookups.now) (cuts_for (L.text lookups.now) (putting section put.now said (located (L.text lookups.now) design) design)) result }
    ensures order { IfOk result (λ ss. AreInOrder 0 ss (length (L.text lookups.now))) }
{
    let Some(header) = lookups.header(section) else {
        return Ok(Sequence::new(alloc));
    };
    let Some(end) = lookups.end(section) else {
        return Ok(Sequence::new(alloc));
    };
    counted(
        alloc,
        lookups,
        header,
        lookups.entries_in(section) + 1,
        end,
        0,
        put,
    )
}

/// Why a component isn't added.
fn add_refusal<A: Allocator + Copy, L: LookUps>(
    library: &Library<'_, A>,
    lookups: &L,
    component: &[u8],
    cell: &[u8],
) -> Option<EditCode>
    requires { IsOk (read_def (L.text lookups.now)) }
    ensures { (design : List Record) → read_def (L.text lookups.now) ≡ Ok design → result ≡ lowest (section_plan_of library.now (L.text lookups.now) design (add_component component.now cell.now)).refusals }
{
    if !has_macro(library, cell) {
        return Some(EditCode::UnknownName);
    }
    if !is_component_name(component) {
        return Some(EditCode::BadName);
    }
    if lookups.component(component).is_some() {
        return Some(EditCode::NameTaken);
    }
    if !has_section(lookups, Section::Components) {
        return Some(EditCode::NoSection);
    }
    None
}

/// The splices that add a component to a text that reads, or why that is refused.
pub fn add_splices<A: Allocator + Copy, L: LookUps>(
    alloc: A,
    library: &Library<'_, A>,
    lookups: &L,
    component: &[u8],
    cell: &[u8],
) -> Result<Splices<A>, EditRefusal>
    requires fits { length (L.text lookups.now) ≤ MAX_TEXT }
    requires reads { IsOk (read_def (L.text lookups.now)) }
    ensures makes { MakesSplices library.now (L.text lookups.now) (of_section (add_component component.now cell.now)) result }
    ensures order { IfOk result (λ ss. AreInOrder 0 ss (length (L.text lookups.now))) }
{
    if let Some(code) = add_refusal(library, lookups, component, cell) {
        return Err(EditRefusal::Refused(code));
    }
    let put = component_text(alloc, component, cell)?;
    edits_stand_in_order();
    entry_put(alloc, lookups, Section::Components, &put)
}

/// Why routing or placement isn't blocked.
fn block_refusal<A: Allocator + Copy, L: LookUps>(
    library: &Library<'_, A>,
    lookups: &L,
    layer: Option<&[u8]>,
    x1: i64,
    y1: i64,
    x2: i64,
    y2: i64,
) -> Option<EditCode>
    requires { IsOk (read_def (L.text lookups.now)) }
    ensures { (design : List Record) → read_def (L.text lookups.now) ≡ Ok design → result ≡ lowest (section_plan_of library.now (L.text lookups.now) design (add_blockage (lent (λ l. l.now) layer.entry) x1 y1 x2 y2)).refusals }
{
    if is_unknown_layer(library, layer) {
        return Some(EditCode::UnknownName);
    }
    let any_out = is_out(x1) || is_out(y1) || is_out(x2) || is_out(y2);
    if any_out {
        return Some(EditCode::Number);
    }
    if !has_section(lookups, Section::Blockages) {
        return Some(EditCode::NoSection);
    }
    None
}

/// The splices that block routing on a layer, or placement, in a text that reads, or why that is refused.
pub fn block_splices<A: Allocator + Copy, L: LookUps>(
    alloc: A,
    library: &Library<'_, A>,
    lookups: &L,
    layer: Option<&[u8]>,
    x1: i64,
    y1: i64,
    x2: i64,
    y2: i64,
) -> Result<Splices<A>, EditRefusal>
    requires fits { length (L.text lookups.now) ≤ MAX_TEXT }
    requires reads { IsOk (read_def (L.text lookups.now)) }
    ensures makes { MakesSplices library.now (L.text lookups.now) (of_section (add_blockage (lent (λ l. l.now) layer.entry) x1 y1 x2 y2)) result }
    ensures order { IfOk result (λ ss. AreInOrder 0 ss (length (L.text lookups.now))) }
{
    if let Some(code) = block_refusal(library, lookups, layer, x1, y1, x2, y2) {
        return Err(EditRefusal::Refused(code));
    }
    let put = blockage_text(alloc, layer, x1, y1, x2, y2)?;
    edits_stand_in_order();
    entry_put(alloc, lookups, Section::Blockages, &put)
}

/// The splices that take the entry of a component out of its section, and set that one's number of entries.
fn entry_taken<A: Allocator + Copy, L: LookUps>(
    alloc: A,
    lookups: &L,
    entry: Lying<'_>,
) -> Result<Splices<A>, EditRefusal>
    requires fits { length (L.text lookups.now) ≤ MAX_TEXT }
    requires reads { IsOk (read_def (L.text lookups.now)) }
    requires lies { LiesIn (L.text lookups.now) entry }
    requires some { 0 < length (words_of entry.tokens) }
    requires stand { (design : List Record) → read_def (L.text lookups.now) ≡ Ok design → StandWithin (L.text lookups.now) (taking Components (lying_tokens entry) (located (L.text lookups.now) design) design) }
    ensures cuts { (design : List Record) → read_def (L.text lookups.now) ≡ Ok design → AreCuts (L.text lookups.now) (cuts_for (L.text lookups.now) (taking Components (lying_tokens entry.entry) (located (L.text lookups.now) design) design)) result }
    ensures order { IfOk result (λ ss. AreInOrder 0 ss (length (L.text lookups.now))) }
{
    let Some(header) = lookups.header(Section::Components) else {
        return Ok(Sequence::new(alloc));
    };
    let count = lookups.entries_in(Section::Components).saturating_sub(1);
    counted(
        alloc,
        lookups,
        header,
        count,
        entry,
        entry.tokens.len(),
        b"",
    )
}

/// Whether the component of an entry is held where it is.
fn stays<'t>(component: ComponentParts<'t>, entry: TokenRun<'t>) -> bool
    requires { words_of entry ≡ spell component_form (component_view component) }
    ensures { result ≡ is_held (placing (component_view component.entry).clauses) }
{
    match component.placing_tokens(entry) {
        Some((clause, _)) => is_held(&clause),
        None => false,
    }
}

/// The splices that take a component out of a text that reads, or why that is refused.
pub fn remove_splices<A: Allocator + Copy, L: LookUps>(
    alloc: A,
    library: &Library<'_, A>,
    lookups: &L,
    component: &[u8],
) -> Result<Splices<A>, EditRefusal>
    requires fits { length (L.text lookups.now) ≤ MAX_TEXT }
    requires reads { IsOk (read_def (L.text lookups.now)) }
    ensures makes { MakesSplices library.now (L.text lookups.now) (of_section (remove_component component.now)) result }
    ensures order { IfOk result (λ ss. AreInOrder 0 ss (length (L.text lookups.now))) }
{
    let Some((parts, entry)) = lookups.component(component) else {
        return Err(EditRefusal::Refused(EditCode::UnknownName));
    };
    if stays(parts, entry.tokens) {
        return Err(EditRefusal::Refused(EditCode::Fixed));
    }
    if lookups.is_listed(component) {
        return Err(EditRefusal::Refused(EditCode::Connection));
    }
    edits_stand_in_order();
    entry_taken(alloc, lookups, entry)
}
