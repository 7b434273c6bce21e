//! The names in entries about places (LEF/DEF 5.8 Language Reference, "DEF Syntax").

ghost use Rattle.std.specs.Prelude.{◌≡◌, ◌++◌, flat_map, OnOk};
ghost use Rattle.std.specs.Option.{option_map};
ghost use Rattle.form_meanings.specs.Firsts.{first_of};
ghost use Rattle.def_grammar.specs.Groups.{region_named};
ghost use Rattle.def_parts.specs.ClauseViews.{bytes_view};
ghost use Rattle.place_parts.specs.BlockageViews.{blockage_entry_view};
ghost use Rattle.place_parts.specs.ComponentViews.{component_view};
ghost use Rattle.place_parts.specs.GroupViews.{group_clauses_of, group_view};
ghost use Rattle.place_parts.specs.PinViews.{pin_clause_view, pin_clauses_of, pin_view};
ghost use Rattle.entry_rules.specs.References.{blockage_references, component_references, group_references, pin_references, shape_references};
ghost use Rattle.def_grammar.specs.Pins.{net_of_clause};
ghost use Rattle.entry_references.specs.ReferenceViews.{references_view};

use crate::reference::{Reference, push};
use lefdef_tokens::Token;
use place_parts::blockages::{BlockageEntry, BlockageKind};
use place_parts::component_parts::ComponentParts;
use place_parts::groups::{GroupClause, GroupParts};
use place_parts::pins::{PinClause, PinParts};
use statement_reader::parts::Parts;
use std::alloc::{AllocError, Allocator};

/// Adds the macro of a component and its first region.
pub(crate) fn push_component<'t, A: Allocator>(
    parts: &ComponentParts<'t>,
    found: &mut Vec<Reference<'t>, A>,
) -> Result<(), AllocError>
    ensures { OnOk result (references_view found.new.items ≡ references_view found.old.items ++ component_references (component_view parts.now)) }
{
    push(found, Reference::Macro(parts.cell.bytes))?;
    if let Some(region) = parts.region {
        push(found, Reference::Region(region))?;
    }
    Ok(())
}

/// The first net that clauses of a pin name.
fn first_net<'t>(clauses: Parts<'t, PinClause<'t>>) -> Option<Token<'t>>
    ensures { option_map bytes_view result ≡ first_of net_of_clause (pin_clauses_of clauses.entry) }
{
    let mut left = clauses;
    while let Some(clause) = left.next() {
        if let PinClause::Net(name) = clause {
            return Some(name);
        }
    }
    None
}

/// Adds the layer or via of a shape of a pin.
fn push_shape<'t, A: Allocator>(
    clause: PinClause<'t>,
    found: &mut Vec<Reference<'t>, A>,
) -> Result<(), AllocError>
    ensures { OnOk result (references_view found.new.items ≡ references_view found.old.items ++ shape_references (pin_clause_view clause.entry)) }
{
    match clause {
        PinClause::Rectangle(rectangle) => push(found, Reference::Layer(rectangle.layer.bytes)),
        PinClause::Via(via) => push(found, Reference::Via(via.name.bytes)),
        PinClause::Polygon(layer, _) => push(found, Reference::Layer(layer.bytes)),
        PinClause::Placed(_) | PinClause::Net(_) | PinClause::Port | PinClause::Kept(_) => Ok(()),
    }
}

/// Adds the layers and vias of the shapes of a pin.
fn push_shapes<'t, A: Allocator>(
    clauses: Parts<'t, PinClause<'t>>,
    found: &mut Vec<Reference<'t>, A>,
) -> Result<(), AllocError>
    ensures { OnOk result (references_view found.new.items ≡ references_view found.old.items ++ flat_map shape_references (pin_clauses_of clauses.entry)) }
{
    let mut left = clauses;
    while let Some(clause) = left.next() {
        push_shape(clause, found)?;
    }
    Ok(())
}

/// Adds the first net of a pin, and the layers and vias of its shapes.
pub(crate) fn push_pin<'t, A: Allocator>(
    parts: &PinParts<'t>,
    found: &mut Vec<Reference<'t>, A>,
) -> Result<(), AllocError>
    ensures { OnOk result (references_view found.new.items ≡ references_view found.old.items ++ pin_references (pin_view parts.now)) }
{
    if let Some(net) = first_net(parts.clauses.again()) {
        push(found, Reference::Net(net.bytes))?;
    }
    push_shapes(parts.clauses.again(), found)
}

/// The first region of one name that clauses of a group name.
pub fn first_group_region<'t>(clauses: Parts<'t, GroupClause<'t>>) -> Option<Token<'t>>
    ensures { option_map bytes_view result ≡ first_of region_named (group_clauses_of clauses.entry) }
{
    let mut left = clauses;
    while let Some(clause) = left.next() {
        if let Some(name) = clause.region() {
            return Some(name);
        }
    }
    None
}

/// Adds the first region of one name of a group.
pub(crate) fn push_group<'t, A: Allocator>(
    parts: &GroupParts<'t>,
    found: &mut Vec<Reference<'t>, A>,
) -> Result<(), AllocError>
    ensures { OnOk result (references_view found.new.items ≡ references_view found.old.items ++ group_references (group_view parts.now)) }
{
    match first_group_region(parts.clauses.again()) {
        Some(region) => push(found, Reference::Region(region.bytes)),
        None => Ok(()),
    }
}

/// Adds the layer that a blockage blocks.
pub(crate) fn push_blockage<'t, A: Allocator>(
    entry: &BlockageEntry<'t>,
    found: &mut Vec<Reference<'t>, A>,
) -> Result<(), AllocError>
    ensures { OnOk result (references_view found.new.items ≡ references_view found.old.items ++ blockage_references (blockage_entry_view entry.now)) }
{
    let BlockageEntry::Blocks(parts) = entry else {
        return Ok(());
    };
    match parts.kind {
        BlockageKind::Layer(name) => push(found, Reference::Layer(name.bytes)),
        BlockageKind::Placement => Ok(()),
    }
}
