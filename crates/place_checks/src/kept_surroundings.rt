//! What components stand in, kept from one edit of a design to the next.

use crate::copying::copies_of;
use crate::kept_assignments::KeptAssignments;
use crate::kept_fence::KeptFence;
use crate::kept_rows::KeptRows;
use crate::surroundings::Surroundings;
use design_model::geometry::Rect;
use std::alloc::{AllocError, Allocator, Global};
use std::marker::Model;

/// What components stand in, with names of its own, in the order in which it is looked up.
#[derive(Drop)]
pub struct KeptSurroundings<A: Allocator = Global> {
    rows: KeptRows<A>,
    die: Option<Rect>,
    fences: Vec<KeptFence<A>, A>,
    assignments: KeptAssignments<A>,
}

impl<A: Allocator> Model for KeptSurroundings<A> {
    ghost use Rattle.std.specs.Prelude.{map};
    ghost use Rattle.std.specs.Option.{option_map};
    ghost use Rattle.design_model.specs.Views.{rectangle_of};
    ghost use Rattle.design_rules.specs.Surroundings.{Surroundings};
    ghost use Rattle.place_checks.specs.KeptViews.{kept_fence_view};

    ghost Value = { Surroundings };

    ghost view = { λ s. record { rows = s.rows; die = option_map rectangle_of s.die; fences = map kept_fence_view s.fences.items; assignments = s.assignments } };
}

impl<A: Allocator + Copy> KeptSurroundings<A> {
    ghost use Rattle.std.specs.Prelude.{◌≡◌, IfOk};
    ghost use Rattle.place_checks.specs.IndexViews.{surroundings_view};

    /// Copies of what surroundings hold, with each name.
    pub fn of(
        alloc: A,
        surroundings: &Surroundings<'_, A>,
    ) -> Result<KeptSurroundings<A>, AllocError>
        ensures { IfOk result (λ k. k ≡ surroundings_view surroundings.now) }
    {
        let rows = or_error!(KeptRows::of(alloc, &surroundings.rows));
        let fences = or_error!(copies_of(alloc, &surroundings.fences));
        let assignments = or_error!(KeptAssignments::of(alloc, &surroundings.assignments));
        Ok(KeptSurroundings {
            rows,
            die: surroundings.die,
            fences,
            assignments,
        })
    }

    /// The surroundings, with names that are lent. It costs a copy of the lists: nothing is sorted, and no text is read.
    pub fn lent<'a>(&'a self, alloc: A) -> Result<Surroundings<'a, A>, AllocError>
        ensures { IfOk result (λ s. surroundings_view s ≡ self.entry.now) }
    {
        let rows = or_error!(self.rows.lent(alloc));
        let fences = or_error!(copies_of(alloc, &self.fences));
        let assignments = or_error!(self.assignments.lent(alloc));
        Ok(Surroundings {
            rows,
            die: self.die,
            fences,
            assignments,
        })
    }
}
