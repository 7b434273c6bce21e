//! Pins of all components, which an entry of a net lists by `*`.

ghost use Rattle.std.specs.Prelude.{◌≡◌};
ghost use Rattle.std.specs.List.{list_any};
ghost use Rattle.def_grammar.specs.Terminals.{is_of_all};
ghost use Rattle.def_reader.specs.StatementViews.{record_view};
ghost use Rattle.wire_parts.specs.TerminalViews.{terminals_of as terminals_left};
ghost use Rattle.net_laws.specs.NetsTold.{terminals_of};

use def_reader::entry::Entry;
use def_reader::statement::Statement;
use statement_reader::parts::Parts;
use wire_parts::nets::NetEntry;
use wire_parts::terminals::Terminal;

/// Whether one of these terminals is a pin of all components.
pub(crate) fn is_any_of_all<'t>(terminals: &Parts<'t, Terminal<'t>>) -> bool
    ensures { result ≡ list_any is_of_all (terminals_left terminals.now) }
{
    let mut left = terminals.again();
    while let Some(terminal) = left.next() {
        if terminal.is_of_all() {
            return true;
        }
    }
    false
}

/// Whether a statement is an entry of a net that lists a pin of all components.
pub(crate) fn lists_all<'t>(statement: &Statement<'t>) -> bool
    ensures { result ≡ list_any is_of_all (terminals_of (record_view statement.now)) }
{
    match statement {
        Statement::Entry(Entry::Net(NetEntry::Net(net))) => is_any_of_all(&net.terminals),
        Statement::Entry(Entry::SpecialNet(net)) => is_any_of_all(&net.terminals),
        _ => false,
    }
}
