//! The via of a name (LEF/DEF 5.8 Language Reference, "Vias").

ghost use Rattle.std.specs.Prelude.{◌≡◌};
ghost use Rattle.std.specs.Option.{option_map};
ghost use Rattle.design_wires.specs.FoundVias.{found_view, via_found};

use cell_library::library::Library;
use cell_library::via_definition::Via;
use design_names::names::Names;
use std::alloc::{AllocError, Allocator, Global};
use via_parts::vias::ViaParts;

/// A via of the design, or one of the library.
#[derive(Copy)]
pub enum ViaView<'a, 'l, 't, A: Allocator = Global> {
    Def(&'a ViaParts<'t>),
    Lef(&'a Via<'l, A>),
}

// (written out: a derived one copies each field by a call that can fail)
impl<'a, 'l, 't, A: Allocator + Copy> Clone for ViaView<'a, 'l, 't, A> {
    fn clone(&self) -> Result<ViaView<'a, 'l, 't, A>, AllocError> {
        Ok(*self)
    }
}

impl<'a, 'l, 't, A: Allocator + Copy> ViaView<'a, 'l, 't, A> {
    /// The via of a name. Vias of DEF come before those of LEF.
    pub fn find(
        library: &'a Library<'l, A>,
        names: &'a Names<'_, 't, A>,
        name: &[u8],
    ) -> Option<ViaView<'a, 'l, 't, A>>
        ensures { option_map found_view result ≡ via_found library.now names.now name.now }
    {
        if let Some(parts) = names.via(name) {
            return Some(ViaView::Def(parts));
        }
        let via = library.via(name)?;
        Some(ViaView::Lef(via))
    }
}
