//! How statements have to do with names.

ghost use Rattle.std.specs.Prelude.{◌≡◌, ◌++◌, [], flat_map, map, IfOk, MatchOption, OnOk, Some};
ghost use Rattle.std.specs.Option.{option_map, option_to_list};
ghost use Rattle.def_reader.specs.EntryViews.{entry_view};
ghost use Rattle.def_reader.specs.SeenViews.{key_view};
ghost use Rattle.def_reader.specs.StatementViews.{record_view};
ghost use Rattle.wire_parts.specs.TerminalViews.{terminal_view, terminals_of as terminals_left};
ghost use Rattle.design_tables.specs.Marks.{entry_mark, entry_marks, key_mark, marks_of, own_mark, terminal_mark, terminal_marks, terminals_of, word_mark};
ghost use Rattle.design_tables.specs.MarkViews.{name_mark_view};

use crate::role::Role;
use def_reader::entry::Entry;
use def_reader::seen::Key;
use def_reader::statement::Statement;
use statement_reader::parts::Parts;
use std::alloc::{AllocError, Allocator};
use wire_parts::nets::NetEntry;
use wire_parts::terminals::Terminal;

/// A name, and how a statement has to do with it.
#[derive(Clone, Copy)]
pub(crate) struct NameMark<'t> {
    pub name: &'t [u8],
    pub role: Role,
}

/// The mark of a statement that a text has once.
fn word_mark<'t>(key: Key<'t>) -> Option<NameMark<'t>>
    ensures { option_map name_mark_view result ≡ word_mark (key_view key.entry) }
{
    match key {
        Key::Statement(name) => Some(NameMark {
            name,
            role: Role::Statement,
        }),
        _ => None,
    }
}

/// The mark of an entry under its own name.
fn entry_mark<'t>(entry: &Entry<'t>) -> Option<NameMark<'t>>
    ensures { option_map name_mark_view result ≡ entry_mark (entry_view entry.now) }
{
    match entry.name() {
        Some(name) => Some(NameMark {
            name,
            role: Role::Entry(entry.section()),
        }),
        None => None,
    }
}

/// The mark of a statement by what of it a text has once.
pub(crate) fn key_mark<'t>(statement: &Statement<'t>) -> Option<NameMark<'t>>
    ensures { option_map name_mark_view result ≡ key_mark (record_view statement.now) }
{
    match statement {
        Statement::Entry(entry) => entry_mark(entry),
        _ => word_mark(statement.key()),
    }
}

/// The mark of a statement under its own name or word.
pub(crate) fn own_mark<'t>(statement: &Statement<'t>) -> Option<NameMark<'t>>
    ensures { option_map name_mark_view result ≡ own_mark (record_view statement.now) }
{
    match statement {
        Statement::EndSection(section) => Some(NameMark {
            name: section.word(),
            role: Role::SectionEnd,
        }),
        _ => key_mark(statement),
    }
}

/// The mark of a net that lists a terminal.
pub(crate) fn terminal_mark<'t>(terminal: &Terminal<'t>) -> Option<NameMark<'t>>
    ensures { option_map name_mark_view result ≡ terminal_mark (terminal_view terminal.now) }
{
    let pin = terminal.pin.bytes;
    let owner = terminal.owner.bytes;
    if terminal.is_of_all() {
        Some(NameMark {
            name: pin,
            role: Role::StarPin,
        })
    } else if terminal.is_of_design() {
        Some(NameMark {
            name: pin,
            role: Role::DesignPin,
        })
    } else if terminal.is_virtual() {
        None
    } else {
        Some(NameMark {
            name: owner,
            role: Role::Component,
        })
    }
}

/// Puts a mark behind others, where there is one.
fn push_mark<'t, A: Allocator + Copy>(
    marks: &mut Vec<NameMark<'t>, A>,
    mark: Option<NameMark<'t>>,
) -> Result<(), AllocError>
    ensures { OnOk result (map name_mark_view marks.new.items ≡ map name_mark_view marks.old.items ++ option_to_list (option_map name_mark_view mark.entry)) }
{
    if let Some(mark) = mark {
        marks.push(mark)?;
    }
    Ok(())
}

/// Puts the marks of terminals behind others.
fn push_terminals<'t, A: Allocator + Copy>(
    marks: &mut Vec<NameMark<'t>, A>,
    terminals: Parts<'t, Terminal<'t>>,
) -> Result<(), AllocError>
    ensures { OnOk result (map name_mark_view marks.new.items ≡ map name_mark_view marks.old.items ++ flat_map terminal_marks (terminals_left terminals.entry)) }
{
    let mut left = terminals;
    while let Some(terminal) = left.next() {
        push_mark(marks, terminal_mark(&terminal))?;
    }
    Ok(())
}

/// The terminals of an entry. Entries of other sections than NETS and SPECIALNETS, and those of MUSTJOIN, have none.
pub(crate) fn terminals_of<'t>(entry: &Entry<'t>) -> Option<Parts<'t, Terminal<'t>>>
    ensures { MatchOption result (terminals_of (entry_view entry.now) ≡ []) (λ x. terminals_of (entry_view entry.now) ≡ terminals_left x) }
{
    match entry {
        Entry::Net(NetEntry::Net(net)) => Some(net.terminals.again()),
        Entry::SpecialNet(net) => Some(net.terminals.again()),
        _ => None,
    }
}

/// Puts the marks of an entry but for its own behind others.
fn push_entry<'t, A: Allocator + Copy>(
    marks: &mut Vec<NameMark<'t>, A>,
    entry: &Entry<'t>,
) -> Result<(), AllocError>
    ensures { OnOk result (map name_mark_view marks.new.items ≡ map name_mark_view marks.old.items ++ entry_marks (Some (entry_view entry.now))) }
{
    let member = NameMark {
        name: entry.section().word(),
        role: Role::Member,
    };
    marks.push(member)?;
    match terminals_of(entry) {
        Some(terminals) => push_terminals(marks, terminals),
        None => Ok(()),
    }
}

/// All marks of a statement.
pub(crate) fn marks_of<'t, A: Allocator + Copy>(
    alloc: A,
    statement: &Statement<'t>,
) -> Result<Vec<NameMark<'t>, A>, AllocError>
    ensures { IfOk result (λ marks. map name_mark_view marks.items ≡ marks_of (record_view statement.now)) }
{
    let mut marks = Vec::new(alloc);
    push_mark(&mut marks, own_mark(statement))?;
    if let Statement::Entry(entry) = statement {
        push_entry(&mut marks, entry)?;
    }
    Ok(marks)
}
