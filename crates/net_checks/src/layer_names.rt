//! The names of layers by their places.

ghost use Rattle.std.specs.Prelude.{◌≡◌, IfOk, map};
ghost use Rattle.cell_library.specs.LayerViews.{layer_name};

use cell_library::library::Library;
use design_model::identifier::LayerId;
use std::alloc::{AllocError, Allocator};

/// The names of all layers of a library, from the bottom up.
pub fn layer_names<'l, A: Allocator + Copy>(
    alloc: A,
    library: &Library<'l, A>,
) -> Result<Vec<&'l [u8], A>, AllocError>
    ensures { IfOk result (λ names. map (λ w. w.now) names.items ≡ map layer_name library.now.layers) }
{
    let mut names = Vec::new(alloc);
    while let Some(name) = library.layer_name(LayerId(names.len())) {
        names.push(name)?;
    }
    Ok(names)
}
