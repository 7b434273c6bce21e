//! Pieces that are lent.

ghost use Rattle.std.specs.Prelude.{◌≡◌, IfOk, length};
ghost use Rattle.text_pieces.specs.Changes.{IsBetween};
ghost use Rattle.text_pieces.specs.Chunks.{ChunksGoOn, ids_at};
ghost use Rattle.text_pieces.specs.Content.{Content};
ghost use Rattle.text_pieces.specs.KeptRecords.{AreKept, AreParted, HavePieces, LendsKept};
ghost use Rattle.text_pieces.specs.Lent.{Lends};
ghost use Rattle.text_pieces.specs.Tables.{ids_of};

use crate::prepared::PreparedText;
use crate::text::TextPieces;
use design_model::identifier::StmtId;
use design_model::mode::Mode;
use piece_laws::chains::chains_lead;
use piece_laws::pieces::texts_are_read;
use std::alloc::{AllocError, Allocator};

/// A statement with the blanks and comments before it, the mode in which it stands, and where these bytes begin in the text.
#[derive(Clone, Copy)]
pub struct LentPiece<'t> {
    pub bytes: &'t [u8],
    pub mode: Mode,
    pub at: usize,
}

impl<A: Allocator + Copy> TextPieces<A> {
    /// The piece of a statement: it reads by itself in its mode, and lies in the text.
    pub fn piece(&self, id: StmtId) -> Option<LentPiece<'_>>
        ensures { Lends self.now id result }
    {
        texts_are_read();
        chains_lead();
        let Some(at) = self.table.start_of(id) else {
            return None;
        };
        let piece = &self.table.pieces[id.0];
        Some(LentPiece {
            bytes: piece.bytes.as_slice(),
            mode: piece.mode,
            at,
        })
    }

    /// The bytes of the piece that is kept under a number, and the mode in which it stands: of a statement of the text, or of one
    /// that a change puts in.
    pub fn kept_piece(&self, id: StmtId) -> Option<(&[u8], Mode)>
        ensures { LendsKept self.now.table.slots id result }
    {
        let Some(piece) = self.table.pieces.get(id.0) else {
            return None;
        };
        Some((piece.bytes.as_slice(), piece.mode))
    }

    /// The numbers of the statements, in the order of the text.
    pub fn numbers(&self, alloc: A) -> Result<Vec<StmtId, A>, AllocError>
        ensures { IfOk result (λ ids. ids.items ≡ ids_of self.now.table) }
    {
        self.table.numbers(alloc)
    }

    /// In how many chunks the numbers stand.
    pub fn chunks(&self) -> usize
        ensures { result ≡ length self.now.table.chunks }
    {
        self.table.chunk_count()
    }

    /// The numbers in a chunk, in the order of the text; none where there is no such chunk.
    pub fn chunk(&self, place: usize) -> &[StmtId]
        ensures numbers { result.now ≡ ids_at self.now.table.chunks place }
        ensures pieces { HavePieces self.now.table.slots result.now }
    {
        self.statements_are_kept();
        self.table.ids_in(place)
    }

    /// A law: the statements are kept under their numbers, and the text reads as they say.
    pub fn statements_are_kept(&self)
        ensures { AreKept self.now }
    {
        texts_are_read();
        chains_lead();
        let _ = &self.table;
    }

    /// A law: what the statements say that go out of the text by a change, and those that come in.
    pub fn statements_are_parted(&self, change: &PreparedText<A>)
        ensures { (base other : Content) → IsBetween self.now change.now base other → AreParted self.now.table.slots change.now base other }
    {
        texts_are_read();
        chains_lead();
        let _ = &self.table;
        let _ = &change.changes;
    }
}

/// A law: the numbers from a chunk on are those in it and those from the next one on.
pub fn chunks_go_on()
    ensures { ChunksGoOn }
{}
