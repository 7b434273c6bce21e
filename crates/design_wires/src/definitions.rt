//! Where the layers, the rules and the vias that wires name are defined.

use crate::scale::Scale;
use cell_library::library::Library;
use design_names::names::Names;
use std::alloc::{AllocError, Allocator, Global};

/// The library and the statements of a design, and its units.
#[derive(Copy, Drop)]
pub(crate) struct Definitions<'a, 'l, 'r, 't, A: Allocator = Global> {
    pub(crate) library: &'a Library<'l, A>,
    pub(crate) names: &'a Names<'r, 't, A>,
    pub(crate) scale: Scale,
}

// (written out: a derived one copies each field by a call that can fail)
impl<'a, 'l, 'r, 't, A: Allocator + Copy> Clone for Definitions<'a, 'l, 'r, 't, A> {
    fn clone(&self) -> Result<Definitions<'a, 'l, 'r, 't, A>, AllocError> {
        Ok(*self)
    }
}
