//! The names in entries of VIAS (LEF/DEF 5.8 Language Reference, "Vias").

ghost use Rattle.std.specs.Prelude.{◌≡◌, ◌++◌, map, OnOk};
ghost use Rattle.std.specs.List.{filter_map};
ghost use Rattle.std.specs.Option.{option_map};
ghost use Rattle.form_meanings.specs.Firsts.{first_of};
ghost use Rattle.via_parts.specs.ViaViews.{via_clauses_of, via_layers_view, via_view};
ghost use Rattle.entry_rules.specs.References.{to_layer, via_references};
ghost use Rattle.def_grammar.specs.DefVias.{layer_of_shape, layers_of_clause};
ghost use Rattle.entry_references.specs.ReferenceViews.{references_view};

use crate::reference::{Reference, push};
use statement_reader::parts::Parts;
use std::alloc::{AllocError, Allocator};
use via_parts::vias::{ViaClause, ViaLayers, ViaParts};

/// Adds the layers of the rectangles and polygons of a via.
fn push_shape_layers<'t, A: Allocator>(
    clauses: Parts<'t, ViaClause<'t>>,
    found: &mut Vec<Reference<'t>, A>,
) -> Result<(), AllocError>
    ensures { OnOk result (references_view found.new.items ≡ references_view found.old.items ++ map to_layer (filter_map layer_of_shape (via_clauses_of clauses.entry))) }
{
    let mut left = clauses;
    while let Some(clause) = left.next() {
        match clause {
            ViaClause::Rectangle(rectangle) => push(
                found,
                Reference::Layer(rectangle.layer.bytes),
            )?,
            ViaClause::Polygon(polygon) => push(found, Reference::Layer(polygon.layer.bytes))?,
            _ => {}
        }
    }
    Ok(())
}

/// The first layers that clauses of a via list.
fn first_layers<'t>(clauses: Parts<'t, ViaClause<'t>>) -> Option<ViaLayers<'t>>
    ensures { option_map via_layers_view result ≡ first_of layers_of_clause (via_clauses_of clauses.entry) }
{
    let mut left = clauses;
    while let Some(clause) = left.next() {
        if let ViaClause::Layers(layers) = clause {
            return Some(layers);
        }
    }
    None
}

/// Adds the layers of the rectangles and polygons of a via, and those of its first LAYERS.
pub(crate) fn push_via<'t, A: Allocator>(
    parts: &ViaParts<'t>,
    found: &mut Vec<Reference<'t>, A>,
) -> Result<(), AllocError>
    ensures { OnOk result (references_view found.new.items ≡ references_view found.old.items ++ via_references (via_view parts.now)) }
{
    push_shape_layers(parts.clauses.again(), found)?;
    if let Some(layers) = first_layers(parts.clauses.again()) {
        push(found, Reference::Layer(layers.bottom.bytes))?;
        push(found, Reference::Layer(layers.cut.bytes))?;
        push(found, Reference::Layer(layers.top.bytes))?;
    }
    Ok(())
}
