//! The statements of a text that reads.

ghost use Rattle.std.specs.Prelude.{◌≡◌, ℕ, map, List, Ok, IfOk, IfSome, IsOk};
ghost use Rattle.std.specs.List.{All};
ghost use Rattle.std.specs.Option.{option_map};
ghost use Rattle.design_model.specs.declared.mode.Mode.TheVariants.{In};
ghost use Rattle.statement_model.specs.Form.{spell};
ghost use Rattle.def_grammar.specs.Components.{component_form};
ghost use Rattle.statement_model.specs.Tokens.{Token};
ghost use Rattle.def_grammar.specs.Records.{component, component_of, entry, entry_of, Record, read_def};
ghost use Rattle.def_grammar.specs.Located.{component_at, component_if, located, entry_at, is_entry};
ghost use Rattle.lefdef_tokens.specs.Views.{pieces_of, span_of, words_of};
ghost use Rattle.place_parts.specs.ComponentViews.{component_view, ComponentAt};
ghost use Rattle.def_reader.specs.Lent.{ReadIn, StatementAt, StatementIn};
ghost use Rattle.def_reader.specs.StatementViews.{record_view};
ghost use Rattle.def_reader.specs.RecordViews.{entry_view, located_view, with_tokens};

use crate::entry::Entry;
use crate::read_statement::Read;
use crate::statement::Statement;
use design_model::mode::{Mode, Section};
use lefdef_tokens::{TokenRun, is_word};
use memchr::memchr_iter;
use place_parts::component_parts::ComponentParts;
use statement_reader::laws::records_are_read;
use statement_reader::text;
use std::alloc::{AllocError, Allocator};

/// The statements of a DEF text, one after the other.
pub type Statements<'t> = text::Statements<'t, Statement<'t>, Mode>;

/// The statements without a semicolon: the ends of 14 sections, of the properties' definitions and of the design. A list that
/// lacks room for them alone would be twice as long, and its memory given back and taken anew for each report.
const ENDS: usize = 16;

/// All statements, in the order of the text, without their tokens.
pub fn statements_of<'t, A: Allocator>(
    alloc: A,
    text: &'t [u8],
) -> Result<Vec<Statement<'t>, A>, AllocError>
    requires { IsOk (read_def text.now) }
    ensures records { IfOk result (λ v. read_def text.now ≡ Ok (map record_view v.items)) }
    ensures lent { IfOk result (λ v. All (StatementIn text.now) v.items) }
{
    records_are_read::<Statement<'t>>();
    // Nearly each statement has one semicolon, so the list isn't moved while it grows.
    let semicolons = memchr_iter(b';', text).count();
    let mut found = Vec::with_capacity(alloc, semicolons.saturating_add(ENDS))?;
    let mut statements: Statements<'t> = text::Statements::new(Mode::Top, text);
    while let Some(read) = statements.next() {
        found.push(read.statement)?;
    }
    Ok(found)
}

/// The component of an entry, where it has this name.
fn named<'t>(statement: Statement<'t>, name: &[u8]) -> Option<ComponentParts<'t>>
    ensures gives { (ps : List Token) → option_map (with_tokens ps) result ≡ component_if name.now ps (component_of (record_view statement.entry)) }
    ensures entry { IfSome result (λ c. record_view statement.entry ≡ entry (component (component_view c))) }
    ensures lent { (ps : List Token) → StatementAt ps statement.entry → IfSome result (λ c. ComponentAt ps c) }
{
    match statement {
        Statement::Entry(Entry::Component(parts)) => {
            if parts.name.bytes == name {
                Some(parts)
            } else {
                None
            }
        }
        _ => None,
    }
}

/// The first entry of a component of this name, with its tokens. No statement after it is read.
pub fn component_named<'t>(
    text: &'t [u8],
    name: &[u8],
) -> Option<(ComponentParts<'t>, TokenRun<'t>)>
    requires { IsOk (read_def text.now) }
    ensures gives { (design : List Record) → read_def text.now ≡ Ok design → option_map entry_view result ≡ component_at name.now (located text.now design) }
    ensures spelled { IfSome result (λ x. words_of x.1 ≡ spell component_form (component_view x.0)) }
    ensures lent { IfSome result (λ x. ComponentAt (pieces_of x.1) x.0) }
    ensures text { IfSome result (λ x. x.1.text.now ≡ text.now) }
{
    records_are_read::<Statement<'t>>();
    let mut statements: Statements<'t> = text::Statements::new(Mode::Top, text);
    while let Some(read) = statements.next() {
        if let Some(parts) = named(read.statement, name) {
            return Some((parts, read.tokens));
        }
    }
    None
}

/// Whether a statement is an entry of a section with this name.
fn is_entry(statement: &Statement<'_>, section: Section, name: &[u8]) -> bool
    ensures { result ≡ is_entry section name.now (entry_of (record_view statement.now)) }
{
    let Statement::Entry(entry) = statement else {
        return false;
    };
    let Some(own) = entry.name() else {
        return false;
    };
    is_word(entry.section().word(), section.word()) && is_word(own, name)
}

/// The first entry of a section of this name. No statement after it is read.
pub fn entry_named<'t>(text: &'t [u8], section: Section, name: &[u8]) -> Option<Read<'t>>
    requires { IsOk (read_def text.now) }
    ensures gives { (design : List Record) → read_def text.now ≡ Ok design → option_map located_view result ≡ entry_at section name.now (located text.now design) }
    ensures lent { IfSome result (λ x. ReadIn text.now x) }
    ensures place { IfSome result (λ x. x.place ≡ In section) }
    ensures span { IfSome result (λ x. span_of (pieces_of x.tokens) ≡ record { lo = x.start; hi = x.end }) }
{
    records_are_read::<Statement<'t>>();
    let mut statements: Statements<'t> = text::Statements::new(Mode::Top, text);
    while let Some(read) = statements.next() {
        if is_entry(&read.statement, section, name) {
            return Some(read);
        }
    }
    None
}
