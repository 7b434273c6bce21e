//! What the clauses of an entry of VIAS say of a generated via, by the first of each kind (LEF/DEF 5.8 Language Reference,
//! "Vias").

ghost use Rattle.std.specs.Prelude.{◌≡◌, Some, IfSome, is_some};
ghost use Rattle.std.specs.Option.{option_map};
ghost use Rattle.form_meanings.specs.Firsts.{first_of};
ghost use Rattle.def_grammar.specs.Numbers.{int_of};
ghost use Rattle.def_grammar.specs.Points.{place_of};
ghost use Rattle.def_parts.specs.PointViews.{point_view};
ghost use Rattle.entry_rules.specs.ViaLayers.{rule_of_via};
ghost use Rattle.net_rules.specs.ViaRectangles.{layer_names, metals_of};
ghost use Rattle.cell_library.specs.ViaViews.{array_view, names_view};
ghost use Rattle.via_parts.specs.ViaViews.{by_layer_view, via_clause_view, via_clauses_of, via_layers_view};
ghost use Rattle.design_model.specs.Ranges.{IsPointWithin};
ghost use Rattle.design_wires.specs.PlanClauses.{all_said, first_said, firsts_said, said_by, said_in};
ghost use Rattle.design_wires.specs.PlanViews.{AreNear, IsPlan, metals_view};

use crate::via_plan::{Metals, ViaPlan};
use cell_library::via::{CutArray, LayerNames};
use def_parts::number::int_of;
use def_parts::point::Coordinates;
use design_model::geometry::Point;
use statement_reader::parts::Parts;
use via_parts::vias::{ByLayer, CutArray as CutCounts, ViaClause, ViaLayers};

/// Whether a rule of LEF generates a via with these clauses.
pub(crate) fn is_generated<'t>(clauses: Parts<'t, ViaClause<'t>>) -> bool
    ensures { result ≡ is_some (first_of rule_of_via (via_clauses_of clauses.entry)) }
{
    let mut left = clauses;
    while let Some(clause) = left.next() {
        if let ViaClause::Rule(_) = clause {
            return true;
        }
    }
    false
}

/// A point that was said before, or else the one of a clause.
fn or_place(before: Option<Point>, at: Coordinates<'_>) -> Option<Point>
    requires { IfSome before (IsPointWithin 100000000000) }
    ensures is { result ≡ first_said before (Some (place_of (point_view at.entry))) }
    ensures near { IfSome result (IsPointWithin 100000000000) }
{
    match before {
        Some(_) => before,
        None => Some(at.place()),
    }
}

/// Two points that were said before, or else those of a clause.
fn or_metals(before: Option<Metals>, by: ByLayer<'_>) -> Option<Metals>
    requires { IfSome before AreNear }
    ensures is { option_map metals_view result ≡ first_said (option_map metals_view before) (Some (metals_of (by_layer_view by.entry))) }
    ensures near { IfSome result AreNear }
{
    match before {
        Some(_) => before,
        None => Some(Metals {
            bottom: by.bottom.place(),
            top: by.top.place(),
        }),
    }
}

/// Names of layers that were said before, or else those of a clause.
fn or_layers<'t>(before: Option<LayerNames<'t>>, layers: ViaLayers<'t>) -> Option<LayerNames<'t>>
    ensures { option_map names_view result ≡ first_said (option_map names_view before.entry) (Some (layer_names (via_layers_view layers.entry))) }
{
    match before {
        Some(_) => before,
        None => Some(LayerNames {
            bottom: layers.bottom.bytes,
            cut: layers.cut.bytes,
            top: layers.top.bytes,
        }),
    }
}

/// Rows and columns that were said before, or else those of a clause.
fn or_array(before: Option<CutArray>, array: CutCounts<'_>) -> Option<CutArray>
    ensures { option_map array_view result ≡ first_said (option_map array_view before) (Some (int_of array.entry.rows.bytes.now, int_of array.entry.columns.bytes.now)) }
{
    match before {
        Some(_) => before,
        None => Some(CutArray {
            rows: int_of(array.rows.bytes),
            columns: int_of(array.columns.bytes),
        }),
    }
}

/// Keeps what a clause says where nothing was said of that before.
fn note<'t>(plan: &mut ViaPlan<'t>, clause: ViaClause<'t>)
    requires { IsPlan plan.old }
    ensures is { said_in plan.new ≡ all_said (said_in plan.old) (said_by (via_clause_view clause.entry)) }
    ensures in_range { IsPlan plan.new }
{
    match clause {
        ViaClause::CutSize(size) => plan.cut_size = or_place(plan.cut_size, size),
        ViaClause::Layers(layers) => plan.layers = or_layers(plan.layers, layers),
        ViaClause::CutSpacing(space) => plan.cut_spacing = or_place(plan.cut_spacing, space),
        ViaClause::Enclosure(by) => plan.enclosure = or_metals(plan.enclosure, by),
        ViaClause::RowCol(array) => plan.array = or_array(plan.array, array),
        ViaClause::Origin(at) => plan.origin = or_place(plan.origin, at),
        ViaClause::Offset(by) => plan.offset = or_metals(plan.offset, by),
        _ => {}
    }
}

/// What clauses say of a generated via, in one pass over them.
pub(crate) fn plan_of<'t>(clauses: Parts<'t, ViaClause<'t>>) -> ViaPlan<'t>
    ensures is { said_in result ≡ firsts_said (via_clauses_of clauses.entry) }
    ensures in_range { IsPlan result }
{
    let mut left = clauses;
    let mut plan = ViaPlan {
        cut_size: None,
        layers: None,
        cut_spacing: None,
        enclosure: None,
        array: None,
        origin: None,
        offset: None,
    };
    while let Some(clause) = left.next() {
        note(&mut plan, clause);
    }
    plan
}
