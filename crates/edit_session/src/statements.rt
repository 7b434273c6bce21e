//! The lines on statements, which follow an edit by the statements that it exchanges.

ghost use Rattle.std.specs.Prelude.{IfSome, List};
ghost use Rattle.def_grammar.specs.Records.{Record};
ghost use Rattle.design_text.specs.DesignTexts.{Content};
ghost use Rattle.design_text.specs.Exchanges.{AreExchanges, records_in};
ghost use Rattle.followed_places.specs.Places.{said};
ghost use Rattle.followed_statements.specs.Following.{AreOnStatements};
ghost use Rattle.followed_statements.specs.Telling.{AreStatementsTold};
ghost use Rattle.edit_session.specs.Known.{AreKnown};

use crate::change::Change;
use crate::known_lines::KnownLines;
use cell_library::library::Library;
use def_reader::entry::Entry;
use def_reader::statement::Statement;
use design_model::mode::Section;
use design_text::made::Made;
use design_text::text::DesignText;
use edit_model::edit::Edit;
use followed_statements::{ToldStatements, follow_statements, tell_statements};
use kept_lines::KeptLines;
use std::alloc::Allocator;

/// An edit that changes a section, or what others see of a component.
#[derive(Clone, Copy)]
struct SectionEdit<'e> {
    /// The component that it is of, if it is of one.
    component: Option<&'e [u8]>,
}

/// An edit as one that changes a section or what others see of a component, if it is one.
fn section_edit<'e>(edit: &Edit<'e>) -> Option<SectionEdit<'e>> {
    match edit {
        Edit::Add { component, .. } => Some(SectionEdit {
            component: Some(*component),
        }),
        Edit::Remove { component } => Some(SectionEdit {
            component: Some(*component),
        }),
        Edit::Remaster { component, .. } => Some(SectionEdit {
            component: Some(*component),
        }),
        Edit::Block { .. } => Some(SectionEdit { component: None }),
        Edit::Place { .. }
        | Edit::Unplace { .. }
        | Edit::Connect { .. }
        | Edit::Disconnect { .. }
        | Edit::Route { .. }
        | Edit::Unroute { .. } => None,
    }
}

/// The name of the component that a statement is, if it is one.
fn component_name<'t>(statement: &Statement<'t>) -> Option<&'t [u8]> {
    match statement {
        Statement::Entry(Entry::Component(parts)) => Some(parts.name.bytes),
        _ => None,
    }
}

/// Whether bytes have a `+`, before which an entry has no clauses.
fn have_clauses(bytes: &[u8]) -> bool {
    for byte in bytes {
        if *byte == b'+' {
            return true;
        }
    }
    false
}

/// The component whose entry has a position before its clauses: an edit of the text from there on may give it another macro.
fn component_begun<A: Allocator + Copy>(text: &DesignText<A>, position: usize) -> Option<&[u8]> {
    let statement = text.statement_at(position)?;
    let name = component_name(&statement)?;
    let entry = text.statement(Section::Components, name)?;
    let before = entry.bytes.get(..position.checked_sub(entry.pos)?)?;
    if have_clauses(before) {
        None
    } else {
        Some(name)
    }
}

/// What is told of a text before an edit that is of this component at most. Where memory is refused nothing is.
fn tell<A: Allocator + Copy>(
    alloc: A,
    library: &Library<'_, A>,
    text: &DesignText<A>,
    component: Option<&[u8]>,
) -> Option<ToldStatements<A>>
    ensures { IfSome result (AreStatementsTold library.now (said (records_in text.now))) }
{
    text.statements_are_kept();
    match tell_statements(alloc, library, text, component) {
        Ok(told) => told,
        Err(_) => None,
    }
}

/// The same before an edit of the design, if it is one of a section or of what others see of a component.
fn tell_by_edit<A: Allocator + Copy>(
    alloc: A,
    library: &Library<'_, A>,
    text: &DesignText<A>,
    edit: &Edit<'_>,
) -> Option<ToldStatements<A>>
    ensures { IfSome result (AreStatementsTold library.now (said (records_in text.now))) }
{
    let sections = section_edit(edit)?;
    tell(alloc, library, text, sections.component)
}

/// The same before an edit of the text from a position on, if it may give a component another macro.
fn tell_by_text<A: Allocator + Copy>(
    alloc: A,
    library: &Library<'_, A>,
    text: &DesignText<A>,
    position: usize,
) -> Option<ToldStatements<A>>
    ensures { IfSome result (AreStatementsTold library.now (said (records_in text.now))) }
{
    let component = component_begun(text, position)?;
    tell(alloc, library, text, Some(component))
}

/// What is told of a text before an edit of its sections, or of what others see of a component, while the lines on its statements are
/// known.
pub(crate) fn tell_known<A: Allocator + Copy>(
    alloc: A,
    library: &Library<'_, A>,
    text: &DesignText<A>,
    change: Change<'_, '_>,
    known: &KnownLines<A>,
) -> Option<ToldStatements<A>>
    ensures { IfSome result (AreStatementsTold library.now (said (records_in text.now))) }
{
    if known.statements.is_none() {
        return None;
    }
    match change {
        Change::Design(edit) => tell_by_edit(alloc, library, text, edit),
        Change::Text(position) => tell_by_text(alloc, library, text, position),
    }
}

/// The lines on statements after an edit, from those that were known, which are so no longer. Where memory is refused there are none.
pub(crate) fn follow_known<A: Allocator + Copy>(
    alloc: A,
    library: &Library<'_, A>,
    text: &DesignText<A>,
    made: &Made<A>,
    told: Option<ToldStatements<A>>,
    known: &mut KnownLines<A>,
) -> Option<KeptLines<A>>
    requires { (old : Content) × AreExchanges text.now.pieces.table.slots (records_in old) made.now.exchanges (records_in text.now) × IfSome told (AreStatementsTold library.now (said (records_in old))) × AreKnown library.now (said (records_in old)) known.old }
    ensures lines { IfSome result (AreOnStatements library.now (said (records_in text.now))) }
    ensures known { (design : List Record) → AreKnown library.now design known.old → AreKnown library.now design known.new }
{
    let kept = known.statements.take()?;
    match follow_statements(alloc, library, text, made, told, kept) {
        Ok(lines) => lines,
        Err(_) => None,
    }
}
