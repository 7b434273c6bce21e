//! Lines that ask for edits of a net.

ghost use Rattle.std.specs.Prelude.{◌≡◌};
ghost use Rattle.form_meanings.specs.Words.{Gives};
ghost use Rattle.edit_rules.specs.Script.{connect_order, disconnect_order, route_order, route_to, unroute_order};
ghost use Rattle.script_lines.specs.Orders.{order_seen};

use crate::command::Command;
use crate::line::{next_word, one_word, three_words, without_blanks};
use edit_model::edit::Edit;

/// `connect n c p` behind its name.
pub(crate) fn connect(line: &[u8]) -> Option<Command<'_>>
    ensures { Gives order_seen result (connect_order line.now) }
{
    let (net, owner, pin) = three_words(line)?;
    Some(Command::Edit(Edit::Connect { net, owner, pin }))
}

/// `disconnect n c p` behind its name.
pub(crate) fn disconnect(line: &[u8]) -> Option<Command<'_>>
    ensures { Gives order_seen result (disconnect_order line.now) }
{
    let (net, owner, pin) = three_words(line)?;
    Some(Command::Edit(Edit::Disconnect { net, owner, pin }))
}

/// The wiring of a net, unless it is empty.
fn routed<'a>(net: &'a [u8], wiring: &'a [u8]) -> Option<Command<'a>>
    ensures { Gives order_seen result (route_to net.now wiring.now) }
{
    if wiring.is_empty() {
        None
    } else {
        Some(Command::Edit(Edit::Route { net, wiring }))
    }
}

/// `route n WIRING` behind its name: WIRING is all that stands from its first byte on.
pub(crate) fn route(line: &[u8]) -> Option<Command<'_>>
    ensures { Gives order_seen result (route_order line.now) }
{
    let (net, later) = next_word(line)?;
    routed(net, without_blanks(later))
}

/// `unroute n` behind its name.
pub(crate) fn unroute(line: &[u8]) -> Option<Command<'_>>
    ensures { Gives order_seen result (unroute_order line.now) }
{
    let net = one_word(line)?;
    Some(Command::Edit(Edit::Unroute { net }))
}
