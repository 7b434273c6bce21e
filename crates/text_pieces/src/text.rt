//! A text in pieces.

ghost use Rattle.std.specs.Prelude.{◌≡◌, ◌<◌, ◌≤◌, ◌+◌, ◌-◌, ◌^◌, ◌++◌, IfErr, IfOk, Ok, OnErr, OnOk, length, map, nat_le, option_map};
ghost use Rattle.std.specs.List.{slice_range};
ghost use Rattle.std.specs.Io.KnownBytes.{Appends};
ghost use Rattle.counted_devices.specs.Counting.{HasFailed};
ghost use Rattle.counted_devices.specs.Known.{WritesPart};
ghost use Rattle.design_model.specs.declared.TheConstants.{MAX_TEXT};
ghost use Rattle.text_pieces.specs.Chunks.{AreOnce, first_id, id_after, id_before};
ghost use Rattle.text_pieces.specs.Changes.{IsBetween};
ghost use Rattle.text_pieces.specs.Covering.{HasNoCover, IsCover, PreparesAll, cover_of, cut_of};
ghost use Rattle.text_pieces.specs.Content.{Content, Opens, read_keyless, text_of};
ghost use Rattle.text_pieces.specs.Lasting.{Leads};
ghost use Rattle.text_pieces.specs.NewStretches.{new_stretch};
ghost use Rattle.text_pieces.specs.Statements.{bytes_in, lead, lent_bytes, look_up, modes_by_number, number_at, spans_by_number, statements_of};
ghost use Rattle.text_pieces.specs.Lent.{numbered_records};
ghost use Rattle.text_pieces.specs.Preparing.{Prepares, StandsStill};
ghost use Rattle.text_pieces.specs.Stretches.{ReadsStretch, cut_text};
ghost use Rattle.text_pieces.specs.Tables.{ids_of};
ghost use Rattle.text_pieces.specs.Told.{Tells};

use crate::behind::Behind;
use crate::bytes::Block;
use crate::chunks::exchange;
use crate::lists::place_new;
use crate::opening::{read_chunk, room_for};
use crate::prepared::{PrepareError, PreparedText, TextCut};
use crate::storing::small;
use crate::stretch::{Stretch, append_part, first_mode, spliced, tail_after, touched};
use crate::table::PieceTable;
use crate::told::{Told, Untold};
use crate::writing::write_pieces;
use counted_devices::counted::CountedWrite;
use counted_devices::output::{MAX_INTERRUPTIONS, WriteFault, write_whole};
use design_model::MAX_TEXT;
use design_model::fault::{Fault, FaultCode, ReadError};
use design_model::identifier::StmtId;
use design_model::mode::Mode;
use lefdef_tokens::{token_at, tokens_move};
use piece_laws::pieces::{pieces_are_read, tails_are_found, tails_may_end, texts_are_read};
use rereading::reread::reread;
use std::alloc::{AllocError, Allocator, Global};
use std::marker::Model;

/// A text as the pieces of its statements, and the bytes behind the last of them.
pub struct TextPieces<A: Allocator = Global> {
    pub(crate) table: PieceTable<A>,
    tail: Vec<u8, A>,
    len: usize,
}

// (written out, so that who owns this is proved over one call)
impl<A: Allocator> Drop for TextPieces<A> {
    fn drop(self) {
        let TextPieces {
            table: _,
            tail: _,
            len: _,
        } = self;
    }
}

impl<A: Allocator> Model for TextPieces<A> {
    ghost use Rattle.text_pieces.specs.Covering.{HasNoCover, IsCover, PreparesAll, cut_of};
    ghost use Rattle.text_pieces.specs.Content.{Content, IsText};
    ghost use Rattle.text_pieces.specs.Tables.{table_of};

    ghost Value = { Content };

    ghost view = { λ t. record { table = table_of t.table; tail = t.tail.items; len = t.len } };

    ghost invariant = { λ t. IsText (record { table = table_of t.table; tail = t.tail.items; len = t.len }) };
}

/// Where the first token of a piece begins.
fn lead(bytes: &[u8]) -> usize
    ensures lead { result ≡ lead bytes.now }
    ensures within { result ≤ length bytes.now }
{
    match token_at(bytes, 0) {
        Ok(Some((token, _))) => token.pos,
        _ => 0,
    }
}

/// Reads all statements of a text that isn't too long, and tells each.
fn read_all<A: Allocator + Copy, T: Told>(
    alloc: A,
    block: &Block<A>,
    told: &mut T,
) -> Result<TextPieces<A>, ReadError>
    requires { length block.now ≤ MAX_TEXT }
    ensures opens { Opens block.now result }
    ensures told { IfOk result (λ t. Tells T.says told.old told.new (numbered_records t)) }
{
    tails_are_found();
    tails_may_end();
    texts_are_read();
    let text = block.as_slice();
    let pieces = room_for(alloc, text);
    let chunks = Vec::new(alloc);
    let mut table = PieceTable { pieces, chunks };
    let mut mode = Mode::Top;
    let mut pos = 0;
    'chunks: loop {
        let number = small(table.chunk_count())?;
        match read_chunk(alloc, block, pos, mode, number, &mut table.pieces, told) {
            Ok(part) => {
                mode = part.mode;
                pos = part.pos;
                table.chunks.push(part.chunk)?;
                if part.is_last {
                    let tail = Vec::from_slice(alloc, &text[pos..])?;
                    let len = text.len();
                    return Ok(TextPieces { table, tail, len });
                }
            }
            Err(error) => return Err(error),
        }
    }
}

impl<A: Allocator + Copy> TextPieces<A> {
    /// The pieces of a text whose statements can be read. A key may stand more than once, and `UNITS` may be lacking.
    pub fn open(alloc: A, text: &[u8]) -> Result<TextPieces<A>, ReadError>
        ensures { Opens text.now result }
    {
        let Ok(bytes) = Vec::from_slice(alloc, text) else {
            return Err(ReadError::Memory);
        };
        let Ok(block) = Block::new(bytes) else {
            return Err(ReadError::Memory);
        };
        TextPieces::open_telling(alloc, &block, &mut Untold)
    }

    /// The same of a text that isn't copied: its pieces are parts of the block. Each statement is told with its number as it is
    /// read.
    pub fn open_telling<T: Told>(
        alloc: A,
        block: &Block<A>,
        told: &mut T,
    ) -> Result<TextPieces<A>, ReadError>
        ensures opens { Opens block.now result }
        ensures told { IfOk result (λ t. Tells T.says told.old told.new (numbered_records t)) }
    {
        let text = block.as_slice();
        if text.len() > MAX_TEXT {
            return Err(ReadError::Fault(Fault {
                code: FaultCode::TooLong,
                pos: 0,
            }));
        }
        read_all(alloc, block, told)
    }

    /// How many bytes the text has.
    pub fn len(&self) -> usize
        ensures { result ≡ length (text_of self.now) }
    {
        self.len
    }

    /// Whether the text stays within its limit where these bytes give way to so many others.
    pub fn fits(&self, from: usize, to: usize, put: usize) -> bool
        requires order { from ≤ to }
        requires within { to ≤ length (text_of self.now) }
        ensures { result ≡ nat_le ((length (text_of self.now) - (to - from)) + put) MAX_TEXT }
    {
        let stays = self.len - (to - from);
        put <= MAX_TEXT - stays
    }

    /// Reads again what an edit touches, and as much behind it as is needed.
    fn stretch(&self, alloc: A, lo: usize, hi: usize, put: &[u8]) -> Result<Stretch<A>, ReadError>
        requires order { lo ≤ hi }
        requires within { hi ≤ length (text_of self.now) }
        requires fits { length (cut_text self.now (record { lo = lo; hi = hi; put = put.now })) ≤ MAX_TEXT }
        ensures { ReadsStretch self.now (record { lo = lo; hi = hi; put = put.now }) result }
    {
        pieces_are_read();
        tails_may_end();
        texts_are_read();
        tokens_move();
        let at = self.table.first_touched(lo);
        let behind = Behind::from_place(&self.table, &self.tail, at.chunk, at.index);
        let mode = first_mode(&behind);
        let Ok((old, passed)) = touched(alloc, &behind, hi - at.start) else {
            return Err(ReadError::Memory);
        };
        let Ok(raw) = spliced(alloc, &old, lo - at.start, hi - at.start, put) else {
            return Err(ReadError::Memory);
        };
        let later = behind.after(passed);
        let new = reread(alloc, mode, &raw, &later)?;
        let out = passed + new.used;
        let Ok(tail) = tail_after(alloc, &later, new.used, new.rest, &self.tail) else {
            return Err(ReadError::Memory);
        };
        Ok(Stretch {
            chunk: at.chunk,
            index: at.index,
            out,
            pieces: new.pieces,
            tail,
            reads: new.reads,
        })
    }

    /// The bytes of a statement, from its first token to its last.
    pub fn statement(&self, id: StmtId) -> Option<&[u8]>
        ensures { option_map lent_bytes result ≡ option_map (bytes_in (text_of self.now)) (look_up id (spans_by_number self.now)) }
    {
        texts_are_read();
        let Some(piece) = self.table.piece(id) else {
            return None;
        };
        let bytes = piece.bytes.as_slice();
        Some(&bytes[lead(bytes)..])
    }

    /// The mode in which a statement stands.
    pub fn mode(&self, id: StmtId) -> Option<Mode>
        ensures { result ≡ look_up id (modes_by_number self.now) }
    {
        texts_are_read();
        let Some(piece) = self.table.piece(id) else {
            return None;
        };
        Some(piece.mode)
    }

    /// Where the first token of a statement begins.
    pub fn offset(&self, id: StmtId) -> Option<usize>
        ensures { result ≡ option_map (λ s. s.lo) (look_up id (spans_by_number self.now)) }
    {
        texts_are_read();
        let Some(start) = self.table.start_of(id) else {
            return None;
        };
        Some(start + lead(self.table.pieces[id.0].bytes.as_slice()))
    }

    /// The statement that has a position between its first token's start and its last one's end.
    pub fn find_at(&self, pos: usize) -> Option<StmtId>
        ensures { result ≡ number_at pos (spans_by_number self.now) }
    {
        texts_are_read();
        let Some((id, start)) = self.table.at(pos) else {
            return None;
        };
        let first = start + lead(self.table.pieces[id.0].bytes.as_slice());
        (first <= pos).then_some(id)
    }

    /// The first statement.
    pub fn first(&self) -> Option<StmtId>
        ensures { result ≡ first_id (ids_of self.now.table) }
    {
        self.table.first()
    }

    /// The statement after one.
    pub fn next(&self, id: StmtId) -> Option<StmtId>
        ensures { result ≡ id_after id (ids_of self.now.table) }
    {
        self.table.next(id)
    }

    /// The statement before one.
    pub fn prev(&self, id: StmtId) -> Option<StmtId>
        ensures { result ≡ id_before id (ids_of self.now.table) }
    {
        self.table.prev(id)
    }

    /// Writes the text.
    pub fn write_to<W: CountedWrite>(&self, out: &mut W) -> Result<(), WriteFault>
        requires { W.failed out.old < 2 ^ 63 }
        ensures ok { OnOk result (Appends (W.contents out.old) (W.contents out.new) (text_of self.now)) }
        ensures err { OnErr result (WritesPart (W.contents out.old) (W.contents out.new) (text_of self.now)) }
        ensures failed { OnErr result (HasFailed (W.failed_hard out.old) (W.failed_hard out.new) (W.failed out.old) (W.failed out.new) 33554431) }
        ensures few { W.failed out.new ≤ W.failed out.old + 33554432 }
    {
        let mut patience = MAX_INTERRUPTIONS;
        write_pieces(&self.table, out, &mut patience)?;
        write_whole(out, &self.tail, &mut patience)
    }

    /// A law: the text reads without its keys, and each of its statements has a number of its own.
    pub fn statements_are_numbered(&self)
        ensures reads { read_keyless (text_of self.now) ≡ Ok (map (λ x. x.1) (statements_of (text_of self.now))) }
        ensures all { length (ids_of self.now.table) ≡ length (statements_of (text_of self.now)) }
        ensures once { AreOnce (ids_of self.now.table) }
    {
        texts_are_read();
        let _ = &self.table;
    }

    /// Prepares the change of the text by which these bytes give way to others. What stands stays, whatever the answer is.
    pub fn prepare(
        &mut self,
        alloc: A,
        lo: usize,
        hi: usize,
        put: &[u8],
    ) -> Result<PreparedText<A>, PrepareError>
        ensures prepares { Prepares self.old self.new (record { lo = lo; hi = hi; put = put.now }) result }
        ensures still { StandsStill self.old self.new }
        ensures few { IfOk result (λ p. p.reads ≤ length (new_stretch (text_of self.old) (record { lo = lo; hi = hi; put = put.now }))) }
    {
        if lo > hi || hi > self.len {
            return Err(PrepareError::Range);
        }
        if !self.fits(lo, hi, put.len()) {
            return Err(PrepareError::TooLong);
        }
        let stretch = self.stretch(alloc, lo, hi, put)?;
        let len = self.len - (hi - lo) + put.len();
        let Ok(out) = self
            .table
            .ids_at_most(alloc, stretch.chunk, stretch.index, stretch.out)
        else {
            return Err(PrepareError::Memory);
        };
        let Ok((changes, put)) = place_new(
            alloc,
            &mut self.table,
            stretch.chunk,
            stretch.index,
            stretch.out,
            stretch.pieces,
        ) else {
            return Err(PrepareError::Memory);
        };
        Ok(PreparedText {
            changes,
            tail: stretch.tail,
            len,
            out,
            put,
            reads: stretch.reads,
        })
    }

    /// Appends the bytes of the text from one position to another.
    fn append_range(
        &self,
        alloc: A,
        out: &mut Vec<u8, A>,
        lo: usize,
        hi: usize,
    ) -> Result<(), AllocError>
        requires order { lo ≤ hi }
        requires within { hi ≤ length (text_of self.now) }
        ensures { OnOk result (out.new.items ≡ out.old.items ++ slice_range (text_of self.now) lo hi) }
    {
        let at = self.table.first_touched(lo);
        let behind = Behind::from_place(&self.table, &self.tail, at.chunk, at.index);
        let Ok((old, _)) = touched(alloc, &behind, hi - at.start) else {
            return Err(AllocError);
        };
        append_part(out, &old, lo - at.start, hi - at.start)
    }

    /// What is to stand from a place on, up to the end of the last cut, with all cuts made, and that end.
    fn covering(
        &self,
        alloc: A,
        from: usize,
        cuts: &[TextCut<'_>],
    ) -> Result<(Vec<u8, A>, usize), PrepareError>
        requires { from ≤ length (text_of self.now) }
        ensures covers { IfOk result (λ x. IsCover (text_of self.now) from (map cut_of cuts.now) x.0.items x.1) }
        ensures refuses { IfErr result (λ e. HasNoCover (text_of self.now) from (map cut_of cuts.now) e) }
    {
        let mut put = Vec::new(alloc);
        let mut at = from;
        for cut in cuts {
            if !cut.follows(at, self.len) {
                return Err(PrepareError::Range);
            }
            let Ok(()) = self.append_range(alloc, &mut put, at, cut.lo) else {
                return Err(PrepareError::Memory);
            };
            let Ok(()) = put.extend_from_slice(cut.put) else {
                return Err(PrepareError::Memory);
            };
            at = cut.hi;
        }
        Ok((put, at))
    }

    /// Prepares the change of the text by which the bytes of each cut give way to others, as `prepare` does; what stands between
    /// two cuts is read again too.
    pub fn prepare_all(
        &mut self,
        alloc: A,
        cuts: &[TextCut<'_>],
    ) -> Result<PreparedText<A>, PrepareError>
        ensures prepares { PreparesAll self.old self.new (map cut_of cuts.now) result }
        ensures still { StandsStill self.old self.new }
        ensures few { IfOk result (λ p. p.reads ≤ length (new_stretch (text_of self.old) (cover_of (text_of self.old) (map cut_of cuts.now)))) }
    {
        let Some(first) = cuts.first() else {
            return self.prepare(alloc, 0, 0, b"");
        };
        if first.lo > self.len {
            return Err(PrepareError::Range);
        }
        let lo = first.lo;
        let (put, hi) = self.covering(alloc, lo, cuts)?;
        self.prepare(alloc, lo, hi, &put)
    }

    /// Exchanges the two contents of a change, which takes no memory. The same change then leads back.
    pub fn commit(&mut self, change: &mut PreparedText<A>)
        requires { (base : Content) × (other : Content) × IsBetween self.old change.old base other }
        ensures exchanged { (base other : Content) → IsBetween self.old change.old base other → IsBetween self.new change.new other base }
        ensures leads { (other : Content) → Leads self.old change.old other → StandsStill other self.new × Leads self.new change.new self.old }
    {
        exchange(&mut self.table.chunks, &mut change.changes);
        std::mem::swap(&mut self.tail, &mut change.tail);
        std::mem::swap(&mut self.len, &mut change.len);
        std::mem::swap(&mut change.out, &mut change.put);
    }
}
