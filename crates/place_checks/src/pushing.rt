//! Lists that grow by one.

ghost use Rattle.std.specs.Prelude.{◌≡◌, ◌++◌, ◌∷◌, [], OnOk};

use std::alloc::{AllocError, Allocator};

/// Puts an element behind the others of a list. (A call of its own, so that each caller is proved over one error in the place of two.)
pub(crate) fn put_behind<T: Drop, A: Allocator>(
    item: T,
    items: &mut Vec<T, A>,
) -> Result<(), AllocError>
    ensures { OnOk result (items.new.items ≡ items.old.items ++ item ∷ []) }
{
    items.push(item)?;
    Ok(())
}
