//! Lists that are copied element by element, with names of their own or with names that are lent.

ghost use Rattle.std.specs.Prelude.{◌≡◌, IfOk, map};

use crate::pushing::put_behind;
use std::alloc::{AllocError, Allocator};

/// An element that is made as a copy of another one, whose names it copies or borrows.
pub(crate) trait CopyOf<'a, From, A: Allocator + Copy>: Sized + Drop {
    ghost Value: { Type 0 };

    ghost copied: { Self → Value };

    ghost seen: { From → Value };

    /// A copy of an element.
    fn copy_of(alloc: A, from: &'a From) -> Result<Self, AllocError>
        ensures { IfOk result (λ copy. copied copy ≡ seen from.entry.now) };
}

/// Copies of the elements of a list, in its order.
pub(crate) fn copies_of<'a, From, A: Allocator + Copy, T: CopyOf<'a, From, A>>(
    alloc: A,
    all: &'a [From],
) -> Result<Vec<T, A>, AllocError>
    ensures { IfOk result (λ v. map T.copied v.items ≡ map T.seen all.entry.now) }
{
    let mut copies = or_error!(Vec::with_capacity(alloc, all.len()));
    for from in all {
        let copy = or_error!(T::copy_of(alloc, from));
        or_error!(put_behind(copy, &mut copies));
    }
    Ok(copies)
}
