//! The names in entries of SPECIALNETS (LEF/DEF 5.8 Language Reference, "Special Nets").

ghost use Rattle.std.specs.Prelude.{◌≡◌, ◌++◌, flat_map, OnOk};
ghost use Rattle.wire_parts.specs.SpecialNetViews.{special_clause_view, special_clauses_of, special_net_view};
ghost use Rattle.wire_parts.specs.WiringViews.{special_kind_view, special_wire_view, special_wires_of, special_wiring_view, wires_view};
ghost use Rattle.entry_rules.specs.References.{shield_references, special_clause_references, special_net_references, special_wire_references, special_wiring_references};
ghost use Rattle.entry_references.specs.ReferenceViews.{references_view, special_item_references};

use crate::reference::{Reference, push};
use crate::terminals::push_terminals;
use statement_reader::parts::Parts;
use std::alloc::{AllocError, Allocator};
use wire_parts::paths::{PathItem, SpecialVia};
use wire_parts::special_nets::{SpecialClause, SpecialNetParts};
use wire_parts::wiring::{SpecialWire, SpecialWires, SpecialWiring, SpecialWiringKind};

/// Adds the vias of a path of SPECIALNETS.
fn push_items<'t, A: Allocator>(
    items: Parts<'t, PathItem<'t, SpecialVia<'t>>>,
    found: &mut Vec<Reference<'t>, A>,
) -> Result<(), AllocError>
    ensures { OnOk result (references_view found.new.items ≡ references_view found.old.items ++ special_item_references items.entry) }
{
    let mut left = items;
    while let Some(item) = left.next() {
        if let PathItem::Via(via) = item {
            push(found, Reference::Via(via.via.name.bytes))?;
        }
    }
    Ok(())
}

/// Adds the layer and the vias of a wire.
fn push_wire<'t, A: Allocator>(
    wire: &SpecialWire<'t>,
    found: &mut Vec<Reference<'t>, A>,
) -> Result<(), AllocError>
    ensures { OnOk result (references_view found.new.items ≡ references_view found.old.items ++ special_wire_references (special_wire_view wire.now)) }
{
    push(found, Reference::Layer(wire.layer.bytes))?;
    push_items(wire.path.items.again(), found)
}

/// Adds what wires name that come after the first of a clause.
fn push_later_wires<'t, A: Allocator>(
    wires: Parts<'t, SpecialWire<'t>>,
    found: &mut Vec<Reference<'t>, A>,
) -> Result<(), AllocError>
    ensures { OnOk result (references_view found.new.items ≡ references_view found.old.items ++ flat_map special_wire_references (special_wires_of wires.entry)) }
{
    let mut left = wires;
    while let Some(wire) = left.next() {
        push_wire(&wire, found)?;
    }
    Ok(())
}

/// Adds what the wires of a clause name.
fn push_wires<'t, A: Allocator>(
    wires: &Option<SpecialWires<'t>>,
    found: &mut Vec<Reference<'t>, A>,
) -> Result<(), AllocError>
    ensures { OnOk result (references_view found.new.items ≡ references_view found.old.items ++ flat_map special_wire_references (wires_view wires.now)) }
{
    let Some(wires) = wires else {
        return Ok(());
    };
    push_wire(&wires.first, found)?;
    push_later_wires(wires.others.again(), found)
}

/// Adds the net that wiring shields, and what its wires name.
fn push_wiring<'t, A: Allocator>(
    wiring: &SpecialWiring<'t>,
    found: &mut Vec<Reference<'t>, A>,
) -> Result<(), AllocError>
    ensures { OnOk result (references_view found.new.items ≡ references_view found.old.items ++ special_wiring_references (special_wiring_view wiring.now)) }
{
    if let SpecialWiringKind::Shield(net) = wiring.kind {
        push(found, Reference::Net(net.bytes))?;
    }
    push_wires(&wiring.wires, found)
}

/// Adds what a clause names.
fn push_clause<'t, A: Allocator>(
    clause: &SpecialClause<'t>,
    found: &mut Vec<Reference<'t>, A>,
) -> Result<(), AllocError>
    ensures { OnOk result (references_view found.new.items ≡ references_view found.old.items ++ special_clause_references (special_clause_view clause.now)) }
{
    match clause {
        SpecialClause::Rectangle(layer, _) => push(found, Reference::Layer(layer.bytes)),
        SpecialClause::Vias(vias) => push(found, Reference::Via(vias.via.name.bytes)),
        SpecialClause::Polygon(layer, _) => push(found, Reference::Layer(layer.bytes)),
        SpecialClause::Wiring(wiring) => push_wiring(wiring, found),
        SpecialClause::Subnet(_)
        | SpecialClause::Use(_)
        | SpecialClause::Shape(_)
        | SpecialClause::Mask(_)
        | SpecialClause::Other(_) => Ok(()),
    }
}

/// Adds what the clauses of a net name.
fn push_clauses<'t, A: Allocator>(
    clauses: Parts<'t, SpecialClause<'t>>,
    found: &mut Vec<Reference<'t>, A>,
) -> Result<(), AllocError>
    ensures { OnOk result (references_view found.new.items ≡ references_view found.old.items ++ flat_map special_clause_references (special_clauses_of clauses.entry)) }
{
    let mut left = clauses;
    while let Some(clause) = left.next() {
        push_clause(&clause, found)?;
    }
    Ok(())
}

/// Adds the terminals of a net, and what its clauses name.
pub(crate) fn push_special_net<'t, A: Allocator>(
    parts: &SpecialNetParts<'t>,
    found: &mut Vec<Reference<'t>, A>,
) -> Result<(), AllocError>
    ensures { OnOk result (references_view found.new.items ≡ references_view found.old.items ++ special_net_references (special_net_view parts.now)) }
{
    push_terminals(parts.terminals.again(), found)?;
    push_clauses(parts.clauses.again(), found)
}
