//! What a via of a design does in a path on a layer (LEF/DEF 5.8 Language Reference, "Vias").

ghost use Rattle.std.specs.Prelude.{◌≡◌, ◌∷◌, [], is_some, List, map, None, MatchOption};
ghost use Rattle.def_grammar.specs.Records.{Record};
ghost use Rattle.std.specs.List.{filter_map};
ghost use Rattle.std.specs.Option.{option_map};
ghost use Rattle.form_meanings.specs.Firsts.{first_of};
ghost use Rattle.via_parts.specs.ViaViews.{via_clause_view, via_clauses_of, via_layers_view, via_view};
ghost use Rattle.cell_library.specs.ShapeViews.{shapes_view};
ghost use Rattle.cell_library.specs.ViaViews.{body_view};
ghost use Rattle.lefdef_tokens.specs.Views.{word_view};
ghost use Rattle.def_grammar.specs.DefVias.{layer_of_shape, layers_of_clause};
ghost use Rattle.entry_rules.specs.ViaLayers.{body_layers, def_via_layers, def_via_named, layers_named, rule_of_via};
ghost use Rattle.design_names.specs.NameViews.{lent_via};
ghost use Rattle.entry_checks.specs.JoinedLayers.{Joins, JoinsThose, layer_of};

use crate::joined_layers::JoinedLayers;
use cell_library::library::Library;
use cell_library::shapes::LayerShapes;
use cell_library::via::ViaBody;
use cell_library::via_definition::Via;
use design_names::names::Names;
use statement_reader::parts::Parts;
use std::alloc::Allocator;
use via_parts::vias::{ViaClause, ViaLayers, ViaParts};

/// Whether a rule of LEF generates a via with these clauses.
fn is_generated<'t>(clauses: Parts<'t, ViaClause<'t>>) -> bool
    ensures { result ≡ is_some (first_of rule_of_via (via_clauses_of clauses.entry)) }
{
    let mut left = clauses;
    while let Some(clause) = left.next() {
        if let ViaClause::Rule(_) = clause {
            return true;
        }
    }
    false
}

/// The first `LAYERS` among clauses of a via.
fn first_layers<'t>(clauses: Parts<'t, ViaClause<'t>>) -> Option<ViaLayers<'t>>
    ensures { option_map via_layers_view result ≡ first_of layers_of_clause (via_clauses_of clauses.entry) }
{
    let mut left = clauses;
    while let Some(clause) = left.next() {
        if let ViaClause::Layers(layers) = clause {
            return Some(layers);
        }
    }
    None
}

/// The layer of a rectangle or a polygon of a via.
fn shape_layer<'t>(clause: ViaClause<'t>) -> Option<&'t [u8]>
    ensures { option_map word_view result ≡ layer_of_shape (via_clause_view clause.entry) }
{
    match clause {
        ViaClause::Rectangle(rectangle) => Some(rectangle.layer.bytes),
        ViaClause::Polygon(polygon) => Some(polygon.layer.bytes),
        _ => None,
    }
}

/// The layers of the rectangles and polygons of a via.
fn by_shapes<'t, A: Allocator + Copy>(
    library: &Library<'_, A>,
    clauses: Parts<'t, ViaClause<'t>>,
) -> JoinedLayers<'t>
    ensures { Joins library.now result [] (filter_map layer_of_shape (via_clauses_of clauses.entry)) }
{
    let mut left = clauses;
    let mut joined = JoinedLayers::Nothing;
    while let Some(clause) = left.next() {
        if let Some(layer) = shape_layer(clause) {
            joined = joined.note(library, layer);
        }
    }
    joined
}

/// The layers below, at and above the cuts of a generated via.
fn by_names<'a, A: Allocator + Copy>(
    library: &Library<'_, A>,
    bottom: &'a [u8],
    cut: &'a [u8],
    top: &'a [u8],
) -> JoinedLayers<'a>
    ensures { Joins library.now result [] (bottom.entry.now ∷ cut.entry.now ∷ top.entry.now ∷ []) }
{
    let joined = JoinedLayers::Nothing.note(library, bottom);
    let joined = joined.note(library, cut);
    joined.note(library, top)
}

/// The layers of the shapes of a via of LEF.
fn by_layers<'l, A: Allocator + Copy>(
    library: &Library<'_, A>,
    shapes: &[LayerShapes<'l, A>],
) -> JoinedLayers<'l>
    ensures { Joins library.now result [] (map layer_of (map shapes_view shapes.now)) }
{
    let mut joined = JoinedLayers::Nothing;
    for shape in shapes {
        joined = joined.note(library, shape.layer);
    }
    joined
}

/// The layers that a via of DEF joins.
fn joined_in_def<'t, A: Allocator + Copy>(
    library: &Library<'_, A>,
    via: &ViaParts<'t>,
) -> JoinedLayers<'t>
    ensures { Joins library.now result [] (def_via_layers (via_view via.now)) }
{
    if !is_generated(via.clauses.again()) {
        return by_shapes(library, via.clauses.again());
    }
    match first_layers(via.clauses.again()) {
        Some(layers) => by_names(
            library,
            layers.bottom.bytes,
            layers.cut.bytes,
            layers.top.bytes,
        ),
        None => JoinedLayers::Nothing,
    }
}

/// The layers that a via of LEF joins.
fn joined_in_lef<'l, A: Allocator + Copy>(
    library: &Library<'_, A>,
    via: &Via<'l, A>,
) -> JoinedLayers<'l>
    ensures { Joins library.now result [] (body_layers (body_view via.now.body)) }
{
    match &via.body {
        ViaBody::Listed(shapes) => by_layers(library, shapes.as_slice()),
        ViaBody::Generated(generated) => match generated.layers {
            Some(names) => by_names(library, names.bottom, names.cut, names.top),
            None => JoinedLayers::Nothing,
        },
    }
}

/// The layers that the via of a name joins, if there is one, where the via of that name of DEF is told. Vias of DEF come before those
/// of LEF. It takes no memory.
pub fn joined_by<'a, 't: 'a, A: Allocator + Copy>(
    library: &'a Library<'_, A>,
    in_def: Option<&ViaParts<'t>>,
    via: &[u8],
) -> Option<JoinedLayers<'a>>
    ensures { (design : List Record) → option_map lent_via in_def.entry ≡ def_via_named design via.now → MatchOption result (layers_named library.now design via.now ≡ None) (λ joined. JoinsThose library.now joined (layers_named library.now design via.now)) }
{
    if let Some(parts) = in_def {
        return Some(joined_in_def(library, parts));
    }
    let found = library.via(via)?;
    Some(joined_in_lef(library, found))
}

/// The layers that the via of a name joins, if there is one. It takes no memory.
pub fn joined_layers<'a, A: Allocator + Copy>(
    library: &'a Library<'_, A>,
    names: &'a Names<'_, '_, A>,
    via: &[u8],
) -> Option<JoinedLayers<'a>>
    ensures { MatchOption result (layers_named library.now names.now via.now ≡ None) (λ joined. JoinsThose library.now joined (layers_named library.now names.now via.now)) }
{
    joined_by(library, names.via(via), via)
}
