//! The names in terminals of nets (LEF/DEF 5.8 Language Reference, "Nets").

ghost use Rattle.std.specs.Prelude.{◌≡◌, ◌++◌, flat_map, OnOk};
ghost use Rattle.wire_parts.specs.TerminalViews.{terminal_view, terminals_of};
ghost use Rattle.entry_rules.specs.References.{terminal_references};
ghost use Rattle.entry_references.specs.ReferenceViews.{references_view};

use crate::reference::{Reference, push};
use statement_reader::parts::Parts;
use std::alloc::{AllocError, Allocator};
use wire_parts::terminals::Terminal;

/// Adds a terminal, unless it is a virtual one or one of all components.
fn push_terminal<'t, A: Allocator>(
    terminal: Terminal<'t>,
    found: &mut Vec<Reference<'t>, A>,
) -> Result<(), AllocError>
    ensures { OnOk result (references_view found.new.items ≡ references_view found.old.items ++ terminal_references (terminal_view terminal.entry)) }
{
    if terminal.is_of_all() || terminal.is_virtual() {
        return Ok(());
    }
    push(
        found,
        Reference::Terminal(terminal.owner.bytes, terminal.pin.bytes),
    )
}

/// Adds the terminals of a net.
pub(crate) fn push_terminals<'t, A: Allocator>(
    terminals: Parts<'t, Terminal<'t>>,
    found: &mut Vec<Reference<'t>, A>,
) -> Result<(), AllocError>
    ensures { OnOk result (references_view found.new.items ≡ references_view found.old.items ++ flat_map terminal_references (terminals_of terminals.entry)) }
{
    let mut left = terminals;
    while let Some(terminal) = left.next() {
        push_terminal(terminal, found)?;
    }
    Ok(())
}
