//! Vectors that grow by one value.

ghost use Rattle.std.specs.Prelude.{◌≡◌, ◌++◌, ◌∷◌, [], if◌then◌else◌, is_ok};

use std::alloc::{AllocError, Allocator};

/// Puts a value behind others. A refused growth leaves them as they were.
#[inline(always)]
pub(crate) fn push<T: Drop, A: Allocator>(
    values: &mut Vec<T, A>,
    value: T,
) -> Result<(), AllocError>
    ensures { values.new.items ≡ (if is_ok result then values.old.items ++ value ∷ [] else values.old.items) }
{
    match values.push(value) {
        Ok(()) => Ok(()),
        Err(_) => Err(AllocError),
    }
}
