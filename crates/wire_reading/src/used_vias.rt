//! Vias of paths, as they stand there.

ghost use Rattle.std.specs.Prelude.{◌≡◌, Some};
ghost use Rattle.entry_rules.specs.WireItems.{net_via, special_via, turned_as, via_in_array};
ghost use Rattle.wire_parts.specs.PathViews.{special_via_view, via_array_view, wire_via_view};
ghost use Rattle.design_model.specs.Ranges.{IsArray};
ghost use Rattle.wire_shapes.specs.ItemViews.{IsPlace, via_use_view};
ghost use Rattle.wire_reading.specs.FoundItems.{IsUseInRange};

use crate::item_numbers::{count_of, is_array};
use design_model::geometry::{Orient, Point};
use wire_parts::paths::{SpecialVia, ViaArray, WireVia};
use wire_shapes::ViaUse;

/// A via of a path, by the section of its net, as it stands there.
pub(crate) trait UsedVia<'t>: Sized + Copy + Drop {
    ghost use Rattle.wire_rules.specs.Paths.{ViaUse as TheUse};

    ghost use_of: { Self → TheUse };

    /// How it is turned, and how often it stands there.
    fn used(self) -> ViaUse<'t>
        ensures is { via_use_view result ≡ use_of self }
        ensures in_range { IsUseInRange result };
}

/// How a via is turned; where nothing is said it isn't.
fn turned_as(orient: Option<Orient>) -> Orient
    ensures { result ≡ turned_as orient }
{
    match orient {
        Some(orient) => orient,
        None => Orient::N,
    }
}

impl<'t> UsedVia<'t> for WireVia<'t> {
    ghost use_of = { λ v. net_via (wire_via_view v) };

    fn used(self) -> ViaUse<'t>
        ensures is { via_use_view result ≡ net_via (wire_via_view self.entry) }
        ensures in_range { IsUseInRange result }
    {
        ViaUse {
            name: self.name.bytes,
            orient: turned_as(self.orient),
            columns: 1,
            rows: 1,
            step: Point { x: 0, y: 0 },
        }
    }
}

/// A via in an array.
fn in_array<'t>(via: ViaUse<'t>, array: ViaArray<'t>) -> ViaUse<'t>
    requires { IsUseInRange via }
    ensures is { via_use_view result ≡ via_in_array (via_use_view via.entry) (Some (via_array_view array.entry)) }
    ensures in_range { IsUseInRange result }
{
    let columns = count_of(array.columns.bytes);
    let rows = count_of(array.rows.bytes);
    if !is_array(columns, rows) {
        return via;
    }
    ViaUse {
        name: via.name,
        orient: via.orient,
        columns,
        rows,
        step: array.step.place(),
    }
}

impl<'t> UsedVia<'t> for SpecialVia<'t> {
    ghost use_of = { λ v. special_via (special_via_view v) };

    fn used(self) -> ViaUse<'t>
        ensures is { via_use_view result ≡ special_via (special_via_view self.entry) }
        ensures in_range { IsUseInRange result }
    {
        let via = self.via.used();
        match self.array {
            Some(array) => in_array(via, array),
            None => via,
        }
    }
}
