//! Changes of a text that are prepared.

ghost use Rattle.std.specs.Prelude.{◌≡◌, ◌≤◌, true, false};
ghost use Rattle.text_pieces.specs.Preparing.{unprepared};
ghost use Rattle.text_pieces.specs.declared.prepared.PrepareError.TheVariants.{Memory as IsMemory};

use crate::chunks::Change;
use design_model::fault::ReadError;
use design_model::identifier::StmtId;
use std::alloc::{AllocError, Allocator, Global};
use std::marker::Model;

/// Why a change of a text is not prepared.
#[derive(Clone, Copy, Debug, PartialEq, Eq)]
pub enum PrepareError {
    /// The places are out of order, or behind the end of the text.
    Range,
    /// The text would be too long.
    TooLong,
    /// A statement of the text couldn't be read. Which one, reading the text says.
    Fault,
    /// Memory was refused.
    Memory,
}

impl From<AllocError> for PrepareError {
    ghost from_gives = { λ _ e. e ≡ IsMemory };

    fn from(_error: AllocError) -> PrepareError {
        PrepareError::Memory
    }
}

impl From<ReadError> for PrepareError {
    ghost from_gives = { λ r e. e ≡ unprepared r };

    fn from(error: ReadError) -> PrepareError {
        match error {
            ReadError::Fault(_) => PrepareError::Fault,
            ReadError::Memory => PrepareError::Memory,
        }
    }
}

/// Bytes that take the place of those of a text from `lo` up to `hi`.
#[derive(Clone, Copy)]
pub struct TextCut<'t> {
    pub lo: usize,
    pub hi: usize,
    pub put: &'t [u8],
}

impl<'t> TextCut<'t> {
    /// Whether the cut stands in order, from a position on, within a length.
    pub(crate) fn follows(&self, at: usize, len: usize) -> bool
        ensures yes { result ≡ true → (at ≤ self.now.lo) × (self.now.lo ≤ self.now.hi) × (self.now.hi ≤ len) }
        ensures no { result ≡ false → (at ≤ self.now.lo) × (self.now.lo ≤ self.now.hi) × (self.now.hi ≤ len) → ⊥ }
    {
        at <= self.lo && self.lo <= self.hi && self.hi <= len
    }
}

/// A change of a text, which is prepared and isn't made yet; or, once it is made, the change that takes it back.
pub struct PreparedText<A: Allocator = Global> {
    pub(crate) changes: Vec<Change<A>, A>,
    pub(crate) tail: Vec<u8, A>,
    pub(crate) len: usize,
    pub(crate) out: Vec<StmtId, A>,
    pub(crate) put: Vec<StmtId, A>,
    pub(crate) reads: u64,
}

// (written out, so that who owns this is proved over one call)
impl<A: Allocator> Drop for PreparedText<A> {
    fn drop(self) {
        let PreparedText {
            changes: _,
            tail: _,
            len: _,
            out: _,
            put: _,
            reads: _,
        } = self;
    }
}

impl<A: Allocator> Model for PreparedText<A> {
    ghost use Rattle.std.specs.Prelude.{map};
    ghost use Rattle.text_pieces.specs.Changes.{Prepared};
    ghost use Rattle.text_pieces.specs.Chunks.{shown_change};

    ghost Value = { Prepared };

    ghost view = { λ p. record { changes = map shown_change p.changes.items; tail = p.tail.items; len = p.len; out = p.out.items; put = p.put.items; reads = p.reads } };
}

impl<A: Allocator> PreparedText<A> {
    /// The numbers of the statements that go out, in their order.
    pub fn out(&self) -> &[StmtId]
        ensures { result.now ≡ self.now.out }
    {
        &self.out
    }

    /// The numbers of those that come in for them, in their order.
    pub fn put(&self) -> &[StmtId]
        ensures { result.now ≡ self.now.put }
    {
        &self.put
    }

    /// How many statements were read for the change.
    pub fn reads(&self) -> u64
        ensures { result ≡ self.now.reads }
    {
        self.reads
    }
}
