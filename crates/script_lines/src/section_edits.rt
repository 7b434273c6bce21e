//! Lines that ask for edits of a section.

ghost use Rattle.form_meanings.specs.Words.{Gives};
ghost use Rattle.edit_rules.specs.Script.{add_order, block_order, layer_order, placement_order, remove_order};
ghost use Rattle.script_lines.specs.Orders.{order_seen};

use crate::command::Command;
use crate::line::{five_words, four_words, one_word, two_words};
use crate::numbers::number_of;
use edit_model::edit::Edit;

/// `add c m` behind its name.
pub(crate) fn add(line: &[u8]) -> Option<Command<'_>>
    ensures { Gives order_seen result (add_order line.now) }
{
    let (component, cell) = two_words(line)?;
    Some(Command::Edit(Edit::Add { component, cell }))
}

/// `remove c` behind its name.
pub(crate) fn remove(line: &[u8]) -> Option<Command<'_>>
    ensures { Gives order_seen result (remove_order line.now) }
{
    let component = one_word(line)?;
    Some(Command::Edit(Edit::Remove { component }))
}

/// `x1 y1 x2 y2`.
fn block_placement(line: &[u8]) -> Option<Command<'_>>
    ensures { Gives order_seen result (placement_order line.now) }
{
    let (x1, y1, x2, y2) = four_words(line)?;
    Some(Command::Edit(Edit::Block {
        layer: None,
        x1: number_of(x1),
        y1: number_of(y1),
        x2: number_of(x2),
        y2: number_of(y2),
    }))
}

/// `l x1 y1 x2 y2`.
fn block_layer(line: &[u8]) -> Option<Command<'_>>
    ensures { Gives order_seen result (layer_order line.now) }
{
    let (layer, x1, y1, x2, y2) = five_words(line)?;
    Some(Command::Edit(Edit::Block {
        layer: Some(layer),
        x1: number_of(x1),
        y1: number_of(y1),
        x2: number_of(x2),
        y2: number_of(y2),
    }))
}

/// `block x1 y1 x2 y2` or `block l x1 y1 x2 y2` behind its name.
pub(crate) fn block(line: &[u8]) -> Option<Command<'_>>
    ensures { Gives order_seen result (block_order line.now) }
{
    match block_placement(line) {
        Some(command) => Some(command),
        None => block_layer(line),
    }
}
