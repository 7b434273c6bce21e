//! What components stand in: rows of sites, the die, and fences.

ghost use Rattle.std.specs.Prelude.{◌≤◌, ◌<◌, IfOk, IsPermutation};
ghost use Rattle.design_rules.specs.Boxes.{scale};
ghost use Rattle.design_rules.specs.Surroundings.{assignments, surroundings};
ghost use Rattle.place_checks.specs.IndexViews.{assignments_view, surroundings_view};
ghost use Rattle.place_checks.specs.Patterns.{by_patterns};
ghost use Rattle.place_checks.specs.SameSurroundings.{HaveSameLines};
ghost use Rattle.def_reader.specs.StatementViews.{records_view};

use crate::assignment_table::AssignmentTable;
use crate::fence::Fence;
use crate::floor::{die_of, rows_of};
use crate::groups::assignments_of;
use crate::regions::fences_of;
use crate::row_index::RowIndex;
use cell_library::library::Library;
use def_reader::statement::Statement;
use design_model::geometry::Rect;
use std::alloc::{AllocError, Allocator, Global};

/// The rows, the die, the fences and the groups of a design, for look-ups by a component.
#[derive(Drop)]
pub struct Surroundings<'t, A: Allocator = Global> {
    pub rows: RowIndex<'t, A>,
    pub die: Option<Rect>,
    pub fences: Vec<Fence<'t, A>, A>,
    pub assignments: AssignmentTable<'t, A>,
}

/// A table of the patterns by which the groups of a design assign components to regions.
fn assignment_table<'t, A: Allocator + Copy>(
    alloc: A,
    records: &[Statement<'t>],
) -> Result<AssignmentTable<'t, A>, AllocError>
    ensures { IfOk result (λ table. IsPermutation (by_patterns (assignments (records_view records.now))) (assignments_view table)) }
{
    let assignments = or_error!(assignments_of(alloc, records));
    AssignmentTable::new(alloc, &assignments)
}

/// What the components of a design stand in. Each component has the same lines there as in the definition's lists, whose
/// rows and patterns stand in another order.
pub fn surroundings_of<'t, A: Allocator + Copy>(
    alloc: A,
    library: &Library<'_, A>,
    records: &[Statement<'t>],
) -> Result<Surroundings<'t, A>, AllocError>
    requires some { 0 < scale (records_view records.now) }
    requires few { scale (records_view records.now) ≤ 100000 }
    ensures { IfOk result (λ s. HaveSameLines (surroundings_view s) (surroundings library.now (records_view records.now))) }
{
    let rows = or_error!(rows_of(alloc, library, records));
    let fences = or_error!(fences_of(alloc, records));
    let assignments = or_error!(assignment_table(alloc, records));
    Ok(Surroundings {
        rows: RowIndex::new(rows),
        die: die_of(records),
        fences,
        assignments,
    })
}
