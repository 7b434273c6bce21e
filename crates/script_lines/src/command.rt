//! The lines of a script.

ghost use Rattle.std.specs.Prelude.{◌≡◌, Some, drop};
ghost use Rattle.form_meanings.specs.Words.{Gives};
ghost use Rattle.edit_rules.specs.Script.{check_order, component_edits, first_word, named_order, net_edits, number_or_out, order_in, order_of, questions, section_edits, show_order, text_order, unescaped, words_order};
ghost use Rattle.script_lines.specs.Orders.{order_seen, text_or_none};

use crate::component_edits::{place, remaster, unplace};
use crate::escape::{EscapedBytes, checked};
use crate::line::{next_word, no_words, two_words};
use crate::measures::{cell, length, net_box, place_cell};
use crate::net_edits::{connect, disconnect, route, unroute};
use crate::section_edits::{add, block, remove};
use design_model::mode::Section;
use design_model::number::NumFault;
use design_model::word::is_word;
use edit_model::edit::{Edit, EditCode};
use unit_numbers::whole;

/// What a line asks of a design.
#[derive(Clone, Copy, Debug, PartialEq, Eq)]
pub enum Question<'a> {
    /// All diagnostics.
    Report,
    /// The entry of a section with this name.
    Show(Section, &'a [u8]),
    /// The lengths of all nets together.
    TotalLength,
    /// The length of a net.
    Length(&'a [u8]),
    /// The box round a net.
    Box(&'a [u8]),
    /// How dense a cell is on a layer.
    Cell {
        column: Result<i32, NumFault>,
        row: Result<i32, NumFault>,
        layer: &'a [u8],
    },
    /// How dense a cell is with components.
    PlaceCell {
        column: Result<i32, NumFault>,
        row: Result<i32, NumFault>,
    },
}

/// What a line of a script asks.
#[derive(Clone, Copy)]
pub enum Command<'a> {
    /// A blank line, or one that starts with `#`.
    Nothing,
    Edit(Edit<'a>),
    /// Puts bytes in the place of those from `a` up to `b`.
    Text {
        a: usize,
        b: usize,
        new: EscapedBytes<'a>,
    },
    /// An edit that is refused before the session is asked.
    Refused(EditCode),
    Ask(Question<'a>),
    /// No command, or one with a wrong number of words or a word out of its form.
    Bad,
}

/// `check` behind its name.
fn check(line: &[u8]) -> Option<Command<'_>>
    ensures { Gives order_seen result (check_order line.now) }
{
    if no_words(line) {
        Some(Command::Ask(Question::Report))
    } else {
        None
    }
}

/// The range of `text a b NEW`.
fn text_range<'a>(a: &[u8], b: &[u8], new: EscapedBytes<'a>) -> Command<'a>
    ensures { Some (order_seen result) ≡ text_or_none a.now b.now (unescaped new.entry.raw.now) }
{
    let Ok(a) = whole(a) else {
        return Command::Refused(EditCode::Number);
    };
    let Ok(b) = whole(b) else {
        return Command::Refused(EditCode::Number);
    };
    if a < 0 || b < 0 {
        return Command::Refused(EditCode::Range);
    }
    Command::Text {
        a: a as usize,
        b: b as usize,
        new,
    }
}

/// What stands after the first byte.
fn after_byte(line: &[u8]) -> &[u8]
    ensures { result.now ≡ drop 1 line.now }
{
    if line.is_empty() { line } else { &line[1..] }
}

/// `text a b NEW` behind its name: NEW is all that stands one byte behind `b`.
fn text(line: &[u8]) -> Option<Command<'_>>
    ensures { Gives order_seen result (text_order line.now) }
{
    let (a, line) = next_word(line)?;
    let (b, line) = next_word(line)?;
    let new = checked(after_byte(line))?;
    Some(text_range(a, b, new))
}

/// `show S n` behind its name.
fn show(line: &[u8]) -> Option<Command<'_>>
    ensures { Gives order_seen result (show_order line.now) }
{
    let (section, name) = two_words(line)?;
    let section = Section::of_word(section)?;
    Some(Command::Ask(Question::Show(section, name)))
}

/// A question of a name, with the line behind it.
fn question_named<'a>(name: &[u8], line: &'a [u8]) -> Option<Command<'a>>
    ensures { Gives order_seen result (order_in questions name.now line.now) }
{
    if is_word(name, b"check") {
        check(line)
    } else if is_word(name, b"show") {
        show(line)
    } else if is_word(name, b"length") {
        length(line)
    } else if is_word(name, b"box") {
        net_box(line)
    } else if is_word(name, b"cell") {
        cell(line)
    } else if is_word(name, b"pcell") {
        place_cell(line)
    } else {
        None
    }
}

/// An edit of a component.
fn component_edit<'a>(name: &[u8], line: &'a [u8]) -> Option<Command<'a>>
    ensures { Gives order_seen result (order_in component_edits name.now line.now) }
{
    if is_word(name, b"place") {
        place(line)
    } else if is_word(name, b"unplace") {
        unplace(line)
    } else if is_word(name, b"remaster") {
        remaster(line)
    } else {
        None
    }
}

/// An edit of a net.
fn net_edit<'a>(name: &[u8], line: &'a [u8]) -> Option<Command<'a>>
    ensures { Gives order_seen result (order_in net_edits name.now line.now) }
{
    if is_word(name, b"connect") {
        connect(line)
    } else if is_word(name, b"disconnect") {
        disconnect(line)
    } else if is_word(name, b"route") {
        route(line)
    } else if is_word(name, b"unroute") {
        unroute(line)
    } else {
        None
    }
}

/// An edit of a section, or of the text.
fn section_edit<'a>(name: &[u8], line: &'a [u8]) -> Option<Command<'a>>
    ensures { Gives order_seen result (order_in section_edits name.now line.now) }
{
    if is_word(name, b"add") {
        add(line)
    } else if is_word(name, b"remove") {
        remove(line)
    } else if is_word(name, b"block") {
        block(line)
    } else if is_word(name, b"text") {
        text(line)
    } else {
        None
    }
}

/// The command of a name, with the line behind it.
fn named<'a>(name: &[u8], line: &'a [u8]) -> Option<Command<'a>>
    ensures { Gives order_seen result (named_order name.now line.now) }
{
    if let Some(command) = question_named(name, line) {
        return Some(command);
    }
    if let Some(command) = component_edit(name, line) {
        return Some(command);
    }
    if let Some(command) = net_edit(name, line) {
        return Some(command);
    }
    section_edit(name, line)
}

/// What the words of a line ask.
fn command_of(line: &[u8]) -> Command<'_>
    ensures { order_seen result ≡ words_order (first_word line.now) }
{
    let Some((name, line)) = next_word(line) else {
        return Command::Nothing;
    };
    match named(name, line) {
        Some(command) => command,
        None => Command::Bad,
    }
}

/// Reads a line, without its end.
pub fn parse(line: &[u8]) -> Command<'_>
    ensures { order_seen result ≡ order_of line.now }
{
    match line {
        [] => Command::Nothing,
        [b'#', ..] => Command::Nothing,
        _ => command_of(line),
    }
}
