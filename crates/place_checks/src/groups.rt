//! Which components groups assign to regions (LEF/DEF 5.8 Language Reference, "Groups").

ghost use Rattle.std.specs.Prelude.{◌≡◌, IfOk, map};
ghost use Rattle.design_rules.specs.Surroundings.{assignments};
ghost use Rattle.place_checks.specs.PlaceViews.{assignment_view};
ghost use Rattle.def_reader.specs.StatementViews.{records_view};

use crate::pushing::put_behind;
use def_reader::entry::Entry;
use def_reader::statement::Statement;
use entry_references::places::first_group_region;
use place_parts::groups::Pattern;
use statement_reader::parts::Parts;
use std::alloc::{AllocError, Allocator};

/// A region, and the patterns of the names of components that a group assigns to it, which are read when they are asked
/// for.
#[derive(Clone, Copy)]
pub struct Assignment<'t> {
    pub region: &'t [u8],
    pub patterns: Parts<'t, Pattern<'t>>,
}

/// The assignments of a design, in the order of the text.
pub fn assignments_of<'t, A: Allocator + Copy>(
    alloc: A,
    records: &[Statement<'t>],
) -> Result<Vec<Assignment<'t>, A>, AllocError>
    ensures { IfOk result (λ v. map assignment_view v.items ≡ assignments (records_view records.now)) }
{
    let mut assignments = Vec::new(alloc);
    for statement in records {
        let Statement::Entry(Entry::Group(group)) = statement else {
            continue;
        };
        if let Some(region) = first_group_region(group.clauses.again()) {
            let assignment = Assignment {
                region: region.bytes,
                patterns: group.patterns.again(),
            };
            or_error!(put_behind(assignment, &mut assignments));
        }
    }
    Ok(assignments)
}
