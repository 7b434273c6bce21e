//! What is drawn of a design for the lines on its nets, which are measured from the same drawing.

ghost use Rattle.std.specs.Prelude.{◌≡◌, ◌<◌, ◌≤◌, ◌^◌, IfOk, IfSome, List, flat_map};
ghost use Rattle.std.specs.List.{All};
ghost use Rattle.design_model.specs.Ranges.{IsWithin};
ghost use Rattle.def_grammar.specs.Records.{Record};
ghost use Rattle.lef_grammar.specs.Library.{Library as TheLibrary};
ghost use Rattle.design_rules.specs.Boxes.{scale};
ghost use Rattle.measure_rules.specs.GridCells.{lines_along_x, lines_along_y};
ghost use Rattle.measure_rules.specs.Lengths.{total_length};
ghost use Rattle.net_checks.specs.Drawings.{IsDrawingOf};
ghost use Rattle.reports.specs.Answers.{ReportsOn};
ghost use Rattle.reports.specs.DrawnNets.{AreWithoutNets};
ghost use Rattle.edit_session.specs.Known.{AreDrawn};

use cell_library::library::Library;
use design_names::names::Names;
use net_checks::NetDrawing;
use reports::Reports;
use std::alloc::{AllocError, Allocator, Global};

/// The nets of a design with their shapes, and what is measured of it beside them, if they are to be measured.
pub(crate) struct DrawnNets<'l, 't, A: Allocator + Copy = Global> {
    pub(crate) nets: NetDrawing<'l, 't, A>,
    pub(crate) measures: Option<Reports<A>>,
}

// (written out, so that who owns this is proved over one call)
impl<A: Allocator + Copy> Drop for DrawnNets<'_, '_, A> {
    fn drop(self) {
        let DrawnNets {
            nets: _,
            measures: _,
        } = self;
    }
}

/// What is measured of a design beside its nets, unless it is measured already.
fn without_nets<'t, A: Allocator + Copy>(
    alloc: A,
    library: &'t Library<'_, A>,
    names: &Names<'_, 't, A>,
    is_measured: bool,
) -> Result<Option<Reports<A>>, AllocError>
    requires some { 0 < scale names.now }
    requires few { scale names.now ≤ 100000 }
    requires lengths { total_length library.now names.now (scale names.now) < 2 ^ 64 }
    requires across { All (IsWithin 2147483647) (flat_map lines_along_x names.now) }
    requires upward { All (IsWithin 2147483647) (flat_map lines_along_y names.now) }
    ensures { IfOk result (λ found. IfSome found (AreWithoutNets library.entry.now names.entry.now)) }
{
    if is_measured {
        return Ok(None);
    }
    let measures = Reports::without_nets(alloc, library, names)?;
    Ok(Some(measures))
}

/// What is drawn of a design whose text reads, so that its scale, its lengths and the lines of its grid are in range.
pub(crate) fn drawn_nets<'l, 't, A: Allocator + Copy>(
    alloc: A,
    library: &'t Library<'l, A>,
    names: &Names<'_, 't, A>,
    is_measured: bool,
) -> Result<DrawnNets<'l, 't, A>, AllocError>
    requires some { 0 < scale names.now }
    requires few { scale names.now ≤ 100000 }
    requires lengths { total_length library.now names.now (scale names.now) < 2 ^ 64 }
    requires across { All (IsWithin 2147483647) (flat_map lines_along_x names.now) }
    requires upward { All (IsWithin 2147483647) (flat_map lines_along_y names.now) }
    ensures { IfOk result (AreDrawn library.entry.now names.entry.now) }
{
    let measures = without_nets(alloc, library, names, is_measured)?;
    let nets = NetDrawing::new(alloc, library, names)?;
    Ok(DrawnNets { nets, measures })
}

/// What is measured of a design, if these are measures of it to which its nets are to be put.
fn with_nets<A: Allocator + Copy>(
    nets: &NetDrawing<'_, '_, A>,
    measures: Option<Reports<A>>,
) -> Result<Option<Reports<A>>, AllocError>
    ensures { (library : TheLibrary) (design : List Record) → IsDrawingOf library design nets.now → IfSome measures (AreWithoutNets library design)
        → IfOk result (λ found. IfSome found (ReportsOn library design)) }
{
    let Some(mut reports) = measures else {
        return Ok(None);
    };
    reports.put_nets(nets.nets(), nets.lengths())?;
    Ok(Some(reports))
}

impl<A: Allocator + Copy> DrawnNets<'_, '_, A> {
    /// What is measured of the design, if that was to be.
    pub(crate) fn into_measures(self) -> Result<Option<Reports<A>>, AllocError>
        ensures { (library : TheLibrary) (design : List Record) → AreDrawn library design self.entry → IfOk result (λ found. IfSome found (ReportsOn library design)) }
    {
        let DrawnNets { nets, measures } = self;
        with_nets(&nets, measures)
    }
}
