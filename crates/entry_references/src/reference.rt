//! Names by what they should be the name of.

ghost use Rattle.std.specs.Prelude.{◌≡◌, ◌∷◌, ◌++◌, [], OnOk};
ghost use Rattle.entry_references.specs.ReferenceViews.{reference_view, references_view};

use std::alloc::{AllocError, Allocator};

/// A name in an entry, by what it should be the name of.
#[derive(Clone, Copy, Drop)]
pub enum Reference<'t> {
    Macro(&'t [u8]),
    Region(&'t [u8]),
    Site(&'t [u8]),
    Layer(&'t [u8]),
    Via(&'t [u8]),
    Rule(&'t [u8]),
    Net(&'t [u8]),
    /// Its owner, a component or `PIN` for a pin of the design, and its pin.
    Terminal(&'t [u8], &'t [u8]),
}

/// Adds a reference.
pub(crate) fn push<'t, A: Allocator>(
    found: &mut Vec<Reference<'t>, A>,
    reference: Reference<'t>,
) -> Result<(), AllocError>
    ensures { OnOk result (references_view found.new.items ≡ references_view found.old.items ++ reference_view reference.entry ∷ []) }
{
    found.push(reference)?;
    Ok(())
}
