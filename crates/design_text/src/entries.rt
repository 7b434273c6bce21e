//! The bytes of entries, and where they stand.

ghost use Rattle.std.specs.Prelude.{◌≡◌, List, Ok};
ghost use Rattle.def_grammar.specs.Located.{entry_at, located};
ghost use Rattle.def_grammar.specs.Records.{Record, read_def};
ghost use Rattle.design_text.specs.DesignTexts.{text_of};
ghost use Rattle.design_text.specs.EntryBytes.{AreBytesOf};

use crate::text::DesignText;
use design_model::mode::Section;
use std::alloc::Allocator;

/// An entry from its first byte to its last, and where it begins in the text.
#[derive(Clone, Copy)]
pub struct EntryBytes<'t> {
    pub bytes: &'t [u8],
    pub pos: usize,
}

impl<A: Allocator + Copy> DesignText<A> {
    /// The bytes of the entry of this name in a section. They aren't read.
    pub fn statement(&self, section: Section, name: &[u8]) -> Option<EntryBytes<'_>>
        ensures { (design : List Record) → read_def (text_of self.now) ≡ Ok design → AreBytesOf (text_of self.now) (entry_at section name.now (located (text_of self.now) design)) result }
    {
        self.statements_are_known();
        let Some(id) = self.tables.find(section, name) else {
            return None;
        };
        let Some(bytes) = self.pieces.statement(id) else {
            return None;
        };
        let Some(pos) = self.pieces.offset(id) else {
            return None;
        };
        Some(EntryBytes { bytes, pos })
    }
}
