//! The names in an entry or a row that are defined elsewhere (LEF/DEF 5.8 Language Reference, "DEF Syntax").

ghost use Rattle.std.specs.Prelude.{◌≡◌, ◌++◌, OnOk};
ghost use Rattle.def_reader.specs.EntryViews.{entry_view};
ghost use Rattle.place_parts.specs.RowViews.{row_view};
ghost use Rattle.entry_rules.specs.References.{entry_references, row_references};
ghost use Rattle.entry_references.specs.ReferenceViews.{references_view};

use crate::nets::push_net;
use crate::places::{push_blockage, push_component, push_group, push_pin};
use crate::reference::{Reference, push};
use crate::rules::push_rule;
use crate::special_nets::push_special_net;
use crate::vias::push_via;
use def_reader::entry::Entry;
use place_parts::rows::RowParts;
use std::alloc::{AllocError, Allocator};

/// Adds the names in an entry that are defined elsewhere, at the end of a list. They are lent from the text of the entry.
/// Where memory is refused the list may hold some of them.
pub fn push_references<'t, A: Allocator>(
    entry: &Entry<'t>,
    found: &mut Vec<Reference<'t>, A>,
) -> Result<(), AllocError>
    ensures { OnOk result (references_view found.new.items ≡ references_view found.old.items ++ entry_references (entry_view entry.now)) }
{
    match entry {
        Entry::Component(parts) => push_component(parts, found),
        Entry::Pin(parts) => push_pin(parts, found),
        Entry::Group(parts) => push_group(parts, found),
        Entry::Blockage(blockage) => push_blockage(&blockage.parts(), found),
        Entry::Net(net) => {
            push_net(net, found)?;
            Ok(())
        }
        Entry::SpecialNet(parts) => push_special_net(parts, found),
        Entry::Via(parts) => push_via(parts, found),
        Entry::Rule(parts) => push_rule(parts, found),
        Entry::Region(_) | Entry::Skipped(_, _) => Ok(()),
    }
}

/// Adds the site of a row, at the end of a list.
pub fn push_row_references<'t, A: Allocator>(
    row: &RowParts<'t>,
    found: &mut Vec<Reference<'t>, A>,
) -> Result<(), AllocError>
    ensures { OnOk result (references_view found.new.items ≡ references_view found.old.items ++ row_references (row_view row.now)) }
{
    push(found, Reference::Site(row.site.bytes))
}
