//! The patterns by which groups assign components to regions, kept for look-ups by a component's name.

ghost use Rattle.std.specs.Prelude.{◌≡◌, IfOk};
ghost use Rattle.place_checks.specs.KeptViews.{kept_assigned_view};
ghost use Rattle.place_checks.specs.Patterns.{pattern_view};

use crate::assigned::{Assigned, Starred};
use crate::assignment_table::{AssignmentTable, starred_of};
use crate::copying::{CopyOf, copies_of};
use crate::kept_assigned::{KeptAssigned, KeptStarred};
use design_model::sequence::Bytes;
use std::alloc::{AllocError, Allocator};
use std::marker::Model;

/// The patterns of a table, in its order.
#[derive(Drop)]
pub(crate) struct KeptAssignments<A: Allocator> {
    named: Vec<KeptAssigned<A>, A>,
    starred: Vec<KeptStarred<A>, A>,
}

impl<A: Allocator> Model for KeptAssignments<A> {
    ghost use Rattle.std.specs.Prelude.{◌++◌, List, map};
    ghost use Rattle.design_rules.specs.Surroundings.{Assignment};
    ghost use Rattle.place_checks.specs.KeptOrders.{AreInOrder};
    ghost use Rattle.place_checks.specs.KeptViews.{kept_assigned_view, kept_starred_view};

    ghost Value = { List Assignment };

    ghost view = { λ k. map kept_assigned_view k.named.items ++ map kept_starred_view k.starred.items };

    ghost invariant = { λ k. AreInOrder (map kept_assigned_view k.named.items) };
}

/// Copies of a pattern and of the region that it assigns to.
fn kept_pattern<A: Allocator + Copy>(
    alloc: A,
    pattern: &[u8],
    region: &[u8],
) -> Result<KeptAssigned<A>, AllocError>
    ensures { IfOk result (λ k. kept_assigned_view k ≡ pattern_view region.now pattern.now) }
{
    let pattern = or_error!(Bytes::from_slice(alloc, pattern));
    let region = or_error!(Bytes::from_slice(alloc, region));
    Ok(KeptAssigned { pattern, region })
}

impl<'a, 't, A: Allocator + Copy> CopyOf<'a, Assigned<'t>, A> for KeptAssigned<A> {
    ghost use Rattle.design_rules.specs.Surroundings.{Assignment};
    ghost use Rattle.place_checks.specs.KeptViews.{kept_assigned_view};
    ghost use Rattle.place_checks.specs.Patterns.{assigned_view};

    ghost Value = { Assignment };

    ghost copied = { kept_assigned_view };

    ghost seen = { assigned_view };

    fn copy_of(alloc: A, from: &'a Assigned<'t>) -> Result<KeptAssigned<A>, AllocError> {
        kept_pattern(alloc, from.pattern, from.region)
    }
}

impl<'a, 't, A: Allocator + Copy> CopyOf<'a, Starred<'t>, A> for KeptStarred<A> {
    ghost use Rattle.design_rules.specs.Surroundings.{Assignment};
    ghost use Rattle.place_checks.specs.KeptViews.{kept_starred_view};
    ghost use Rattle.place_checks.specs.Patterns.{starred_view};

    ghost Value = { Assignment };

    ghost copied = { kept_starred_view };

    ghost seen = { starred_view };

    fn copy_of(alloc: A, from: &'a Starred<'t>) -> Result<KeptStarred<A>, AllocError> {
        let KeptAssigned { pattern, region } = or_error!(kept_pattern(
            alloc,
            from.bytes,
            from.region
        ));
        Ok(KeptStarred { pattern, region })
    }
}

impl<'a, A: Allocator + Copy> CopyOf<'a, KeptAssigned<A>, A> for Assigned<'a> {
    ghost use Rattle.design_rules.specs.Surroundings.{Assignment};
    ghost use Rattle.place_checks.specs.KeptViews.{kept_assigned_view};
    ghost use Rattle.place_checks.specs.Patterns.{assigned_view};

    ghost Value = { Assignment };

    ghost copied = { assigned_view };

    ghost seen = { kept_assigned_view };

    fn copy_of(_alloc: A, from: &'a KeptAssigned<A>) -> Result<Assigned<'a>, AllocError> {
        Ok(Assigned {
            pattern: from.pattern.as_slice(),
            region: from.region.as_slice(),
        })
    }
}

impl<'a, A: Allocator + Copy> CopyOf<'a, KeptStarred<A>, A> for Starred<'a> {
    ghost use Rattle.design_rules.specs.Surroundings.{Assignment};
    ghost use Rattle.place_checks.specs.KeptViews.{kept_starred_view};
    ghost use Rattle.place_checks.specs.Patterns.{starred_view};

    ghost Value = { Assignment };

    ghost copied = { starred_view };

    ghost seen = { kept_starred_view };

    /// The pattern is cut at its first star again.
    fn copy_of(_alloc: A, from: &'a KeptStarred<A>) -> Result<Starred<'a>, AllocError> {
        let bytes = from.pattern.as_slice();
        let region = from.region.as_slice();
        match starred_of(bytes) {
            Some(pattern) => Ok(Starred {
                pattern,
                bytes,
                region,
            }),
            // It has a star.
            None => Err(AllocError),
        }
    }
}

impl<A: Allocator + Copy> KeptAssignments<A> {
    ghost use Rattle.std.specs.Prelude.{◌≡◌, IfOk};
    ghost use Rattle.place_checks.specs.IndexViews.{assignments_view};

    /// Copies of the patterns of a table.
    pub(crate) fn of(
        alloc: A,
        table: &AssignmentTable<'_, A>,
    ) -> Result<KeptAssignments<A>, AllocError>
        ensures { IfOk result (λ k. k ≡ assignments_view table.now) }
    {
        let named = or_error!(copies_of(alloc, &table.named));
        let starred = or_error!(copies_of(alloc, &table.starred));
        Ok(KeptAssignments { named, starred })
    }

    /// A table of the patterns, lent. Nothing is sorted.
    pub(crate) fn lent<'a>(&'a self, alloc: A) -> Result<AssignmentTable<'a, A>, AllocError>
        ensures { IfOk result (λ table. assignments_view table ≡ self.entry.now) }
    {
        let named = or_error!(copies_of(alloc, &self.named));
        let starred = or_error!(copies_of(alloc, &self.starred));
        Ok(AssignmentTable::in_order(named, starred))
    }
}
