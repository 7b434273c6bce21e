//! Lines that ask for edits of a component.

ghost use Rattle.form_meanings.specs.Words.{Gives};
ghost use Rattle.edit_rules.specs.Script.{place_order, remaster_order, unplace_order};
ghost use Rattle.script_lines.specs.Orders.{order_seen};

use crate::command::Command;
use crate::line::{four_words, one_word, two_words};
use crate::numbers::number_of;
use design_model::geometry::Orient;
use edit_model::edit::Edit;

/// `place c x y o` behind its name.
pub(crate) fn place(line: &[u8]) -> Option<Command<'_>>
    ensures { Gives order_seen result (place_order line.now) }
{
    let (component, x, y, orient) = four_words(line)?;
    let orient = Orient::of_word(orient)?;
    Some(Command::Edit(Edit::Place {
        component,
        x: number_of(x),
        y: number_of(y),
        orient,
    }))
}

/// `unplace c` behind its name.
pub(crate) fn unplace(line: &[u8]) -> Option<Command<'_>>
    ensures { Gives order_seen result (unplace_order line.now) }
{
    let component = one_word(line)?;
    Some(Command::Edit(Edit::Unplace { component }))
}

/// `remaster c m` behind its name.
pub(crate) fn remaster(line: &[u8]) -> Option<Command<'_>>
    ensures { Gives order_seen result (remaster_order line.now) }
{
    let (component, cell) = two_words(line)?;
    Some(Command::Edit(Edit::Remaster { component, cell }))
}
