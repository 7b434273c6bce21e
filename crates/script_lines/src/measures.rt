//! Lines that ask for lengths, boxes and densities.

ghost use Rattle.form_meanings.specs.Words.{Gives};
ghost use Rattle.edit_rules.specs.Script.{box_order, cell_order, length_order, net_length_order, place_cell_order};
ghost use Rattle.script_lines.specs.Orders.{order_seen};

use crate::command::{Command, Question};
use crate::line::{no_words, one_word, three_words, two_words};
use unit_numbers::whole;

/// The name of a net.
fn net_length(line: &[u8]) -> Option<Command<'_>>
    ensures { Gives order_seen result (net_length_order line.now) }
{
    let net = one_word(line)?;
    Some(Command::Ask(Question::Length(net)))
}

/// `length` or `length n` behind its name.
pub(crate) fn length(line: &[u8]) -> Option<Command<'_>>
    ensures { Gives order_seen result (length_order line.now) }
{
    if no_words(line) {
        Some(Command::Ask(Question::TotalLength))
    } else {
        net_length(line)
    }
}

/// `box n` behind its name.
pub(crate) fn net_box(line: &[u8]) -> Option<Command<'_>>
    ensures { Gives order_seen result (box_order line.now) }
{
    let net = one_word(line)?;
    Some(Command::Ask(Question::Box(net)))
}

/// `cell i j l` behind its name.
pub(crate) fn cell(line: &[u8]) -> Option<Command<'_>>
    ensures { Gives order_seen result (cell_order line.now) }
{
    let (column, row, layer) = three_words(line)?;
    Some(Command::Ask(Question::Cell {
        column: whole(column),
        row: whole(row),
        layer,
    }))
}

/// `pcell i j` behind its name.
pub(crate) fn place_cell(line: &[u8]) -> Option<Command<'_>>
    ensures { Gives order_seen result (place_cell_order line.now) }
{
    let (column, row) = two_words(line)?;
    Some(Command::Ask(Question::PlaceCell {
        column: whole(column),
        row: whole(row),
    }))
}
