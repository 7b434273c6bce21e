//! What is said of a via that a VIARULE generates (LEF/DEF 5.8 Language Reference, "Vias").

ghost use Rattle.std.specs.Prelude.{◌≡◌, IfSome};
ghost use Rattle.std.specs.Option.{option_map};
ghost use Rattle.cell_library.specs.ViaViews.{array_view};
ghost use Rattle.net_rules.specs.ViaRectangles.{or_else, origin};
ghost use Rattle.design_model.specs.Ranges.{IsPointWithin};
ghost use Rattle.wire_shapes.specs.GeneratedViews.{IsGenerated, generated_view};
ghost use Rattle.design_wires.specs.PlanViews.{IsPlan, AreNear, one_cut, metals_view, no_metals, plan_view};

use crate::sizes::{as_cuts, as_sizes};
use cell_library::via::{CutArray, LayerNames};
use design_model::geometry::Point;
use wire_shapes::GeneratedVia;

/// Two points, of the bottom metal and of the top one, in database units.
#[derive(Clone, Copy)]
pub(crate) struct Metals {
    pub(crate) bottom: Point,
    pub(crate) top: Point,
}

/// What is said of a generated via, in database units: the first statement of each kind.
#[derive(Clone, Copy)]
pub(crate) struct ViaPlan<'a> {
    pub(crate) cut_size: Option<Point>,
    pub(crate) layers: Option<LayerNames<'a>>,
    pub(crate) cut_spacing: Option<Point>,
    pub(crate) enclosure: Option<Metals>,
    pub(crate) array: Option<CutArray>,
    pub(crate) origin: Option<Point>,
    pub(crate) offset: Option<Metals>,
}

/// Rows and columns, and one of each where nothing is said.
fn or_one_cut(array: Option<CutArray>) -> CutArray
    ensures { array_view result ≡ or_else one_cut (option_map array_view array) }
{
    match array {
        Some(array) => array,
        None => CutArray {
            rows: 1,
            columns: 1,
        },
    }
}

/// Where a via is moved, which is nowhere where nothing is said.
fn or_origin(at: Option<Point>) -> Point
    requires { IfSome at (IsPointWithin 100000000000) }
    ensures is { result ≡ or_else origin at }
    ensures near { IsPointWithin 100000000000 result }
{
    match at {
        Some(at) => at,
        None => Point { x: 0, y: 0 },
    }
}

/// Where metals are moved, which is nowhere where nothing is said.
fn or_no_metals(metals: Option<Metals>) -> Metals
    requires { IfSome metals AreNear }
    ensures is { metals_view result ≡ or_else no_metals (option_map metals_view metals) }
    ensures near { AreNear result }
{
    match metals {
        Some(metals) => metals,
        None => Metals {
            bottom: Point { x: 0, y: 0 },
            top: Point { x: 0, y: 0 },
        },
    }
}

impl<'a> ViaPlan<'a> {
    /// The via that is made by this, unless something is missing that it can't be made without.
    pub(crate) fn generated(self) -> Option<GeneratedVia<'a>>
        requires { IsPlan self }
        ensures is { option_map generated_view result ≡ plan_view self.entry }
        ensures in_range { IfSome result IsGenerated }
    {
        let cut_size = self.cut_size?;
        let layers = self.layers?;
        let cut_spacing = self.cut_spacing?;
        let enclosure = self.enclosure?;
        let array = or_one_cut(self.array);
        let offset = or_no_metals(self.offset);
        Some(GeneratedVia {
            bottom: layers.bottom,
            cut: layers.cut,
            top: layers.top,
            cut_size: as_sizes(cut_size),
            cut_spacing: as_sizes(cut_spacing),
            rows: as_cuts(array.rows),
            columns: as_cuts(array.columns),
            bottom_enclosure: enclosure.bottom,
            top_enclosure: enclosure.top,
            bottom_offset: offset.bottom,
            top_offset: offset.top,
            origin: or_origin(self.origin),
        })
    }
}
