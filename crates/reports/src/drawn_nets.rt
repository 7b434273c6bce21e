//! What is measured of nets that are drawn.

ghost use Rattle.std.specs.Prelude.{◌≡◌, ℕ, List, OnOk, sum};
ghost use Rattle.form_meanings.specs.Firsts.{find_named};
ghost use Rattle.drawn_parts.specs.DrawnLengths.{capped};
ghost use Rattle.net_lists.specs.NetViews.{net_view};
ghost use Rattle.reports.specs.DrawnNets.{found_after, measured_net};
ghost use Rattle.reports.specs.MeasuredNets.{measures_view, name_of};

use crate::net_box::box_round;
use crate::net_table::{Measures, NetTable};
use net_lists::{NetList, NetView};
use std::alloc::{AllocError, Allocator};

/// What is measured of a net of this length.
fn measures_of(net: &NetView<'_, '_>, net_length: u64) -> Measures
    ensures { measures_view (net_view net.now).name result ≡ measured_net (net_view net.now) net_length }
{
    Measures {
        length: net_length,
        bounds: box_round(net.shapes),
    }
}

/// Measures nets of these lengths, each under its name.
pub(crate) fn measure_each<A: Allocator + Copy>(
    nets: &NetList<'_, A>,
    lengths: &[u64],
    table: &mut NetTable<A>,
) -> Result<(), AllocError>
    ensures { OnOk result ((name : List ℕ) → find_named name_of table.new name ≡ found_after nets.now lengths.now name (find_named name_of table.old name)) }
{
    let mut left = nets.nets();
    for net_length in lengths {
        let Some(net) = left.next() else {
            return Ok(());
        };
        let measures = measures_of(&net, *net_length);
        table.set(net.head.name, measures)?;
    }
    Ok(())
}

/// Lengths together, in database units: 2^64 - 1 where they are more.
pub(crate) fn sum_of(lengths: &[u64]) -> u64
    ensures { result ≡ capped (sum lengths.now) }
{
    let mut total: u64 = 0;
    for net_length in lengths {
        total = total.saturating_add(*net_length);
    }
    total
}
