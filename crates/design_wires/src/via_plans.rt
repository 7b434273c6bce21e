//! What statements of DEF and LEF say of a generated via (LEF/DEF 5.8 Language Reference, "Vias" and "Via").

ghost use Rattle.std.specs.Prelude.{◌≡◌, IfSome};
ghost use Rattle.std.specs.Option.{option_map};
ghost use Rattle.lef_grammar.specs.Measures.{point_in};
ghost use Rattle.net_rules.specs.ViaRectangles.{def_generated, lef_generated, metals_in};
ghost use Rattle.cell_library.specs.Numbers.{point_view};
ghost use Rattle.cell_library.specs.ViaViews.{generated_view, metals_view as micron_metals};
ghost use Rattle.via_parts.specs.ViaViews.{via_view};
ghost use Rattle.design_model.specs.Ranges.{IsPointWithin};
ghost use Rattle.design_wires.specs.PlanViews.{AreNear, IsPlan, metals_view, plan_view};
ghost use Rattle.design_wires.specs.Scales.{units_of};

use crate::scale::Scale;
use crate::via_clauses::plan_of;
use crate::via_plan::{Metals, ViaPlan};
use cell_library::numbers::MicronPoint;
use cell_library::via::{GeneratedVia, MetalPoints};
use design_model::geometry::Point;
use via_parts::vias::ViaParts;

/// What an entry of VIAS says of a generated via, by the first clause of each kind.
pub(crate) fn plan_in_def<'a, 't: 'a>(via: &'a ViaParts<'t>) -> ViaPlan<'a>
    ensures is { plan_view result ≡ def_generated (via_view via.entry.now) }
    ensures in_range { IsPlan result }
{
    plan_of(via.clauses.again())
}

/// A point in database units, if there is one.
fn point_in(point: Option<MicronPoint>, scale: Scale) -> Option<Point>
    ensures is { result ≡ option_map (point_in (units_of scale)) (option_map point_view point) }
    ensures near { IfSome result (IsPointWithin 100000000000) }
{
    let point = point?;
    Some(point.in_units(scale.per_micron()))
}

/// Two points in database units, if there are any.
fn metals_in(metals: Option<MetalPoints>, scale: Scale) -> Option<Metals>
    ensures is { option_map metals_view result ≡ option_map (metals_in (units_of scale)) (option_map micron_metals metals) }
    ensures near { IfSome result AreNear }
{
    let metals = metals?;
    let per_micron = scale.per_micron();
    Some(Metals {
        bottom: metals.bottom.in_units(per_micron),
        top: metals.top.in_units(per_micron),
    })
}

/// What a via of LEF says of a generated via.
pub(crate) fn plan_in_lef<'a, 'l: 'a>(via: &'a GeneratedVia<'l>, scale: Scale) -> ViaPlan<'a>
    ensures is { plan_view result ≡ lef_generated (units_of scale) (generated_view via.entry.now) }
    ensures in_range { IsPlan result }
{
    ViaPlan {
        cut_size: point_in(via.cut_size, scale),
        layers: via.layers,
        cut_spacing: point_in(via.cut_spacing, scale),
        enclosure: metals_in(via.enclosure, scale),
        array: via.row_col,
        origin: point_in(via.origin, scale),
        offset: metals_in(via.offset, scale),
    }
}
