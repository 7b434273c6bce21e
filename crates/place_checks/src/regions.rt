//! The fences of a design: its regions of TYPE FENCE (LEF/DEF 5.8 Language Reference, "Regions").

ghost use Rattle.std.specs.Prelude.{◌≡◌, ◌++◌, ◌∷◌, [], IfOk, OnOk, map};
ghost use Rattle.std.specs.List.{cons_option};
ghost use Rattle.std.specs.Option.{option_map};
ghost use Rattle.design_model.specs.Views.{rectangle_of};
ghost use Rattle.form_meanings.specs.Firsts.{first_of};
ghost use Rattle.def_grammar.specs.Regions.{region_points};
ghost use Rattle.def_reader.specs.StatementViews.{record_view, records_view};
ghost use Rattle.place_parts.specs.AgainViews.{region_at_view};
ghost use Rattle.place_parts.specs.RegionViews.{region_clauses_of, region_kind_view, region_view};
ghost use Rattle.def_grammar.specs.Points.{rectangles_of};
ghost use Rattle.design_rules.specs.Surroundings.{fence_of_kind, fences, type_of};
ghost use Rattle.place_checks.specs.PlaceViews.{fence_view};

use crate::corners::rectangle_between;
use crate::fence::Fence;
use crate::hull::hull_of;
use crate::pushing::put_behind;
use def_reader::entry::Entry;
use def_reader::statement::Statement;
use design_model::geometry::Rect;
use design_model::sequence::Sequence;
use place_parts::read_again::RegionAt;
use place_parts::regions::{RegionClause, RegionKind, RegionParts};
use statement_reader::parts::Parts;
use std::alloc::{AllocError, Allocator};

/// The first TYPE of a region.
fn kind_of<'t>(clauses: Parts<'t, RegionClause<'t>>) -> Option<RegionKind>
    ensures { option_map region_kind_view result ≡ first_of type_of (region_clauses_of clauses.entry) }
{
    let mut left = clauses;
    while let Some(clause) = left.next() {
        if let RegionClause::Kind(kind) = clause {
            return Some(kind);
        }
    }
    None
}

/// The rectangles of a region.
fn rectangles_of<A: Allocator + Copy>(
    alloc: A,
    region: &RegionParts<'_>,
) -> Result<Sequence<Rect, A>, AllocError>
    ensures { IfOk result (λ all. map rectangle_of all ≡ rectangles_of (region_points (region_view region.now))) }
{
    let first = region.first.first;
    let mut last = region.first.second.after(first);
    let mut rectangles = Vec::new(alloc);
    or_error!(put_behind(rectangle_between(first, last), &mut rectangles));
    let mut left = region.others.again();
    while let Some(later) = left.next() {
        let first = later.corners.first.after(last);
        last = later.corners.second.after(first);
        or_error!(put_behind(rectangle_between(first, last), &mut rectangles));
    }
    Ok(Sequence::from_vec(rectangles))
}

/// Adds the fence that a region is, where its first TYPE says so.
fn push_region<'t, A: Allocator + Copy>(
    alloc: A,
    region: &RegionAt<'t>,
    found: &mut Vec<Fence<'t, A>, A>,
) -> Result<(), AllocError>
    ensures { let r = region_at_view region.entry.now in OnOk result (map fence_view found.new.items ≡ map fence_view found.old.items ++ cons_option (fence_of_kind r (first_of type_of r.clauses)) []) }
{
    let region = region.parts();
    let Some(RegionKind::Fence) = kind_of(region.clauses.again()) else {
        return Ok(());
    };
    let rectangles = or_error!(rectangles_of(alloc, &region));
    let hull = hull_of(rectangles.as_slice());
    let fence = Fence {
        name: region.name.bytes,
        rectangles,
        hull,
    };
    or_error!(put_behind(fence, found));
    Ok(())
}

/// Adds the fence that a statement is.
fn push_fence<'t, A: Allocator + Copy>(
    alloc: A,
    statement: &Statement<'t>,
    found: &mut Vec<Fence<'t, A>, A>,
) -> Result<(), AllocError>
    ensures { OnOk result (map fence_view found.new.items ≡ map fence_view found.old.items ++ fences (record_view statement.now ∷ [])) }
{
    match statement {
        Statement::Entry(Entry::Region(region)) => push_region(alloc, region, found),
        _ => Ok(()),
    }
}

/// The fences of a design, in the order of the text.
pub fn fences_of<'t, A: Allocator + Copy>(
    alloc: A,
    records: &[Statement<'t>],
) -> Result<Vec<Fence<'t, A>, A>, AllocError>
    ensures { IfOk result (λ v. map fence_view v.items ≡ fences (records_view records.now)) }
{
    let mut fences = Vec::new(alloc);
    for statement in records {
        or_error!(push_fence(alloc, statement, &mut fences));
    }
    Ok(fences)
}
