//! A fence with a name of its own.

ghost use Rattle.std.specs.Prelude.{◌≡◌, IfOk, map};
ghost use Rattle.design_model.specs.Views.{rectangle_of};
ghost use Rattle.place_checks.specs.Hulls.{hull_of};

use crate::copying::CopyOf;
use crate::fence::Fence;
use design_model::geometry::Rect;
use design_model::sequence::{Bytes, Sequence};
use std::alloc::{AllocError, Allocator};

/// A fence as in `Fence`, whose name is its own.
#[derive(Drop)]
pub(crate) struct KeptFence<A: Allocator> {
    name: Bytes<A>,
    rectangles: Sequence<Rect, A>,
    hull: Rect,
    ghost hull_is: { rectangle_of hull ≡ hull_of (map rectangle_of rectangles) },
}

/// A copy of rectangles.
fn copy_of<A: Allocator + Copy>(
    alloc: A,
    rectangles: &Sequence<Rect, A>,
) -> Result<Sequence<Rect, A>, AllocError>
    ensures { IfOk result (λ copy. copy ≡ rectangles.now) }
{
    let copy = or_error!(Vec::from_slice(alloc, rectangles.as_slice()));
    Ok(Sequence::from_vec(copy))
}

impl<'a, 't, A: Allocator + Copy> CopyOf<'a, Fence<'t, A>, A> for KeptFence<A> {
    ghost use Rattle.design_rules.specs.Surroundings.{Fence};
    ghost use Rattle.place_checks.specs.KeptViews.{kept_fence_view};
    ghost use Rattle.place_checks.specs.PlaceViews.{fence_view};

    ghost Value = { Fence };

    ghost copied = { kept_fence_view };

    ghost seen = { fence_view };

    fn copy_of(alloc: A, from: &'a Fence<'t, A>) -> Result<KeptFence<A>, AllocError> {
        let name = or_error!(Bytes::from_slice(alloc, from.name));
        let rectangles = or_error!(copy_of(alloc, &from.rectangles));
        Ok(KeptFence {
            name,
            rectangles,
            hull: from.hull,
        })
    }
}

impl<'a, A: Allocator + Copy> CopyOf<'a, KeptFence<A>, A> for Fence<'a, A> {
    ghost use Rattle.design_rules.specs.Surroundings.{Fence};
    ghost use Rattle.place_checks.specs.KeptViews.{kept_fence_view};
    ghost use Rattle.place_checks.specs.PlaceViews.{fence_view};

    ghost Value = { Fence };

    ghost copied = { fence_view };

    ghost seen = { kept_fence_view };

    fn copy_of(alloc: A, from: &'a KeptFence<A>) -> Result<Fence<'a, A>, AllocError> {
        let rectangles = or_error!(copy_of(alloc, &from.rectangles));
        Ok(Fence {
            name: from.name.as_slice(),
            rectangles,
            hull: from.hull,
        })
    }
}
