//! Vias in paths that don't join the layer of their wire to another.

ghost use Rattle.std.specs.Prelude.{◌≡◌, ◌++◌, ◌∷◌, [], IfOk, OnOk, flat_map, map};
ghost use Rattle.std.specs.List.{filter_map};
ghost use Rattle.def_grammar.specs.Records.{entry as the_entry};
ghost use Rattle.def_grammar.specs.Wiring.{SpecialVia as TheSpecialVia, special_via, via_of_item};
ghost use Rattle.wire_rules.specs.Paths.{layer_over, or_same};
ghost use Rattle.wire_parts.specs.PathViews.{items_of};
ghost use Rattle.wire_parts.specs.SpecialWireViews.{special_paths_left};
ghost use Rattle.def_reader.specs.EntryViews.{entry_view};
ghost use Rattle.entry_rules.specs.OffLayer.{off_layer, off_layer_in_special_wire, off_layer_lines_of, off_layer_vias};
ghost use Rattle.entry_rules.specs.References.{entry_references};
ghost use Rattle.entry_references.specs.ReferenceViews.{reference_view, references_view};
ghost use Rattle.entry_checks.specs.Definitions.{vias_in};
ghost use Rattle.entry_checks.specs.FoundVias.{AreFound};
ghost use Rattle.entry_checks.specs.OffLayerViews.{layer_behind, off_layer_among, off_layer_at, off_layer_text};

use crate::entry_name::name_or_dash;
use crate::found_via::FoundVias;
use crate::known::Known;
use def_reader::entry::Entry;
use design_model::diagnostic::DiagKind;
use entry_references::reference::Reference;
use report_lines::Lines;
use statement_reader::parts::Parts;
use std::alloc::{AllocError, Allocator};
use wire_parts::paths::{PathItem, SpecialVia};
use wire_parts::special_wires::SpecialPaths;
use wire_shapes::ViaOn;

/// An entry by its section and its name.
#[derive(Clone, Copy)]
struct Owner<'n> {
    section: &'n [u8],
    name: &'n [u8],
}

/// Puts the line on a via, if it is known and doesn't join the layer to another; and gives the layer after it.
fn pass_via<'a, K: Known, A: Allocator + Copy>(
    known: &'a K,
    owner: Owner<'_>,
    via: &'a [u8],
    layer: &'a [u8],
    vias: &mut FoundVias<'a>,
    lines: &mut Lines<A>,
) -> Result<&'a [u8], AllocError>
    requires { AreFound (K.defined known.now) vias.old }
    ensures lines { OnOk result (lines.new ≡ lines.old ++ map (off_layer_text owner.entry) (off_layer layer.entry.now via.entry.now (vias_in (K.defined known.entry.now) via.entry.now))) }
    ensures layer { IfOk result (λ l. l.now ≡ or_same layer.entry.now (layer_over layer.entry.now (vias_in (K.defined known.entry.now) via.entry.now))) }
    ensures found { AreFound (K.defined known.entry.now) vias.new }
{
    match vias.via_on(known, via, layer) {
        ViaOn::Unknown => Ok(layer),
        ViaOn::Leads(other) => Ok(other),
        ViaOn::Stays => {
            lines.put(DiagKind::ViaLayer, &[via, owner.section, owner.name], &[])?;
            Ok(layer)
        }
    }
}

/// Puts the line on a reference of a net, if it is to such a via; and gives the layer after it.
fn pass_reference<'a, 't: 'a, K: Known, A: Allocator + Copy>(
    known: &'a K,
    owner: Owner<'_>,
    reference: Reference<'t>,
    layer: &'a [u8],
    vias: &mut FoundVias<'a>,
    lines: &mut Lines<A>,
) -> Result<&'a [u8], AllocError>
    requires { AreFound (K.defined known.now) vias.old }
    ensures lines { OnOk result (lines.new ≡ lines.old ++ map (off_layer_text owner.entry) (off_layer_at (vias_in (K.defined known.entry.now)) layer.entry.now (reference_view reference.entry))) }
    ensures layer { IfOk result (λ l. l.now ≡ layer_behind (vias_in (K.defined known.entry.now)) layer.entry.now (reference_view reference.entry)) }
    ensures found { AreFound (K.defined known.entry.now) vias.new }
{
    match reference {
        Reference::Layer(next) => Ok(next),
        Reference::Via(via) => pass_via(known, owner, via, layer, vias, lines),
        Reference::Macro(_)
        | Reference::Region(_)
        | Reference::Site(_)
        | Reference::Rule(_)
        | Reference::Net(_)
        | Reference::Terminal(_, _) => Ok(layer),
    }
}

/// Puts the lines on vias of a net of NETS, whose references these are: they name the layer of a wire before its vias, so the net
/// isn't read again.
#[tactic(auto, unfolding(crate::specs::OffLayerViews::off_layer_among))]
fn put_net<'a, 't: 'a, K: Known, A: Allocator + Copy>(
    known: &'a K,
    owner: Owner<'_>,
    references: &[Reference<'t>],
    vias: &mut FoundVias<'a>,
    lines: &mut Lines<A>,
) -> Result<(), AllocError>
    requires { AreFound (K.defined known.now) vias.old }
    ensures lines { OnOk result (lines.new ≡ lines.old ++ map (off_layer_text owner.entry) (off_layer_among (vias_in (K.defined known.entry.now)) [] (references_view references.now))) }
    ensures found { AreFound (K.defined known.entry.now) vias.new }
{
    let mut layer: &'a [u8] = b"";
    for reference in references {
        layer = pass_reference(known, owner, *reference, layer, vias, lines)?;
    }
    Ok(())
}

/// Puts the lines on vias of a path of SPECIALNETS that begins on a layer.
#[tactic(auto, unfolding(entry_rules::specs::OffLayer::off_layer_vias))]
fn put_special_items<'a, 't: 'a, K: Known, A: Allocator + Copy>(
    known: &'a K,
    owner: Owner<'_>,
    start: &'a [u8],
    items: Parts<'t, PathItem<'t, SpecialVia<'t>>>,
    vias: &mut FoundVias<'a>,
    lines: &mut Lines<A>,
) -> Result<(), AllocError>
    requires { AreFound (K.defined known.now) vias.old }
    ensures lines { OnOk result (lines.new ≡ lines.old ++ map (off_layer_text owner.entry) (off_layer_vias (vias_in (K.defined known.entry.now)) start.entry.now (filter_map (via_of_item (λ (v : TheSpecialVia). v.via)) (items_of special_via items.entry)))) }
    ensures found { AreFound (K.defined known.entry.now) vias.new }
{
    let mut layer = start;
    let mut left = items;
    while let Some(item) = left.next() {
        if let PathItem::Via(special) = item {
            layer = pass_via(known, owner, special.via.name.bytes, layer, vias, lines)?;
        }
    }
    Ok(())
}

/// Puts the lines on vias of wires of SPECIALNETS.
fn put_special_wires<'a, 't: 'a, K: Known, A: Allocator + Copy>(
    known: &'a K,
    owner: Owner<'_>,
    wires: SpecialPaths<'t>,
    vias: &mut FoundVias<'a>,
    lines: &mut Lines<A>,
) -> Result<(), AllocError>
    requires { AreFound (K.defined known.now) vias.old }
    ensures lines { OnOk result (lines.new ≡ lines.old ++ map (off_layer_text owner.entry) (flat_map (off_layer_in_special_wire (vias_in (K.defined known.entry.now))) (special_paths_left wires.entry))) }
    ensures found { AreFound (K.defined known.entry.now) vias.new }
{
    let mut left = wires;
    while let Some(wire) = left.next() {
        let start = wire.layer.bytes;
        put_special_items(known, owner, start, wire.path.items, vias, lines)?;
    }
    Ok(())
}

/// Puts a line for each via in a path of an entry, of these references, that doesn't join the layer of its wire to another, in
/// the order of the text.
#[tactic(auto, using(crate::proofs::OffLayerSteps::off_layer_of_entry))]
pub(crate) fn off_layers_in<'a, 't: 'a, K: Known, A: Allocator + Copy>(
    known: &'a K,
    entry: &Entry<'t>,
    references: &[Reference<'t>],
    vias: &mut FoundVias<'a>,
    lines: &mut Lines<A>,
) -> Result<(), AllocError>
    requires references { references_view references.now ≡ entry_references (entry_view entry.now) }
    requires found { AreFound (K.defined known.now) vias.old }
    ensures lines { OnOk result (lines.new ≡ lines.old ++ off_layer_lines_of (vias_in (K.defined known.entry.now)) (the_entry (entry_view entry.now))) }
    ensures found { AreFound (K.defined known.entry.now) vias.new }
{
    let owner = Owner {
        section: entry.section().word(),
        name: name_or_dash(entry),
    };
    match entry {
        Entry::Net(_) => put_net(known, owner, references, vias, lines),
        Entry::SpecialNet(parts) => put_special_wires(known, owner, parts.paths(), vias, lines),
        _ => Ok(()),
    }
}
