//! Pins of macros that were found by their names.

ghost use Rattle.std.specs.Prelude.{◌≡◌, true};
ghost use Rattle.design_wires.specs.Scales.{units_of};

use crate::cell_frame::CellFrame;
use cell_library::pin::Pin;
use design_wires::scale::Scale;
use lefdef_tokens::is_word;
use std::alloc::{AllocError, Allocator, Global};

/// A pin of a macro, the names by which it was found, and the macro in database units.
#[derive(Copy, Drop)]
pub(crate) struct FoundPin<'a, 'l, 't, A: Allocator = Global> {
    pub(crate) cell: &'t [u8],
    pub(crate) name: &'t [u8],
    pub(crate) frame: CellFrame,
    pub(crate) pin: &'a Pin<'l, A>,
}

// (written out: a derived one copies each field by a call that can fail)
impl<'a, 'l, 't, A: Allocator + Copy> Clone for FoundPin<'a, 'l, 't, A> {
    fn clone(&self) -> Result<FoundPin<'a, 'l, 't, A>, AllocError> {
        Ok(*self)
    }
}

impl<'a, 'l, 't, A: Allocator + Copy> FoundPin<'a, 'l, 't, A> {
    /// Whether it was found by these names, and with this scale.
    #[inline(always)]
    pub(crate) fn is_of(&self, scale: Scale, cell: &[u8], name: &[u8]) -> bool
        ensures cell { result ≡ true → self.now.cell.now ≡ cell.now }
        ensures name { result ≡ true → self.now.name.now ≡ name.now }
        ensures scale { result ≡ true → units_of self.now.frame.scale ≡ units_of scale }
    {
        is_word(self.name, name)
            && is_word(self.cell, cell)
            && self.frame.scale.per_micron() == scale.per_micron()
    }
}
