//! Pieces under the numbers of their statements, in chunks.

ghost use Rattle.std.specs.Prelude.{◌≡◌, ◌<◌, ◌≤◌, ◌+◌, IfOk, MatchOption, drop, length, map, slice_get, take};
ghost use Rattle.design_model.specs.declared.TheConstants.{MAX_TEXT};
ghost use Rattle.text_pieces.specs.Behind.{ids_from};
ghost use Rattle.text_pieces.specs.Chunks.{IsAbsent, all_ids, first_id, id_after, id_before, ids_at, last_id};
ghost use Rattle.text_pieces.specs.Lists.{IsAnew};
ghost use Rattle.text_pieces.specs.TableChunks.{HasBytes};
ghost use Rattle.text_pieces.specs.Tables.{AreHome, IsTable, Stands, StandsAt, ids_of, kept, kept_at, piece_at, start_in, table_of, weight};
ghost use Rattle.text_pieces.specs.Touched.{BeginsAt};

use crate::bytes::PieceBytes;
use crate::chunks::{Chunk, place_in};
use design_model::identifier::StmtId;
use design_model::mode::Mode;
use slab::Slab;
use std::alloc::{AllocError, Allocator, Global};

/// A statement with the blanks and comments before it, the mode in which it stands, and the chunk that has its number.
#[derive(Drop)]
pub(crate) struct Piece<A: Allocator = Global> {
    pub(crate) bytes: PieceBytes<A>,
    pub(crate) mode: Mode,
    pub(crate) chunk: u32,
}

/// A place of a chunk, and where the piece there begins.
#[derive(Clone, Copy)]
pub(crate) struct Place {
    pub(crate) chunk: usize,
    pub(crate) index: usize,
    pub(crate) start: usize,
}

/// Pieces under the numbers of their statements. Those whose number is in no chunk don't stand in the text.
pub(crate) struct PieceTable<A: Allocator = Global> {
    pub(crate) pieces: Slab<Piece<A>, A>,
    pub(crate) chunks: Vec<Chunk<A>, A>,
}

// (written out, so that who owns this is proved over one call)
impl<A: Allocator> Drop for PieceTable<A> {
    fn drop(self) {
        let PieceTable {
            pieces: _,
            chunks: _,
        } = self;
    }
}

impl<A: Allocator> PieceTable<A> {
    /// How many chunks there are.
    pub(crate) fn chunk_count(&self) -> usize
        ensures { result ≡ length (table_of self.now).chunks }
    {
        self.chunks.len()
    }

    /// The numbers in a chunk; none where there is no such chunk.
    pub(crate) fn ids_in(&self, chunk: usize) -> &[StmtId]
        ensures { result.now ≡ ids_at (table_of self.now).chunks chunk }
    {
        match self.chunks.get(chunk) {
            Some(chunk) => &chunk.ids,
            None => &[],
        }
    }

    /// How many bytes the pieces of a chunk have.
    fn bytes_in(&self, chunk: usize) -> usize
        requires table { IsTable (table_of self.now) }
        requires within { chunk < length (table_of self.now).chunks }
        ensures { HasBytes (table_of self.now) chunk result }
    {
        self.chunks[chunk].len
    }

    /// The chunk in which a statement stands, and its place in it.
    fn place(&self, id: StmtId) -> Option<(usize, usize)>
        requires { IsTable (table_of self.now) }
        ensures { MatchOption result (IsAbsent id (ids_of (table_of self.now))) (λ x. StandsAt (table_of self.now) id x.0 x.1) }
    {
        let Some(piece) = self.pieces.get(id.0) else {
            return None;
        };
        let chunk = piece.chunk as usize;
        let Some(place) = place_in(self.ids_in(chunk), id) else {
            return None;
        };
        Some((chunk, place))
    }

    /// The piece of a statement.
    pub(crate) fn piece(&self, id: StmtId) -> Option<&Piece<A>>
        requires { IsTable (table_of self.now) }
        ensures { MatchOption result (IsAbsent id (ids_of (table_of self.now))) (λ p. (kept p.now ≡ kept_at (table_of self.now).slots id) × Stands id (ids_of (table_of self.now))) }
    {
        let Some(_place) = self.place(id) else {
            return None;
        };
        Some(&self.pieces[id.0])
    }

    /// How many bytes the pieces of some numbers have.
    pub(crate) fn weight(&self, ids: &[StmtId], chunk: usize) -> usize
        requires kept { AreHome (table_of self.now).slots chunk ids.now }
        requires fits { weight (table_of self.now).slots ids.now ≤ MAX_TEXT }
        ensures { result ≡ weight (table_of self.now).slots ids.now }
    {
        let mut sum = 0;
        for id in ids {
            sum += self.pieces[id.0].bytes.len();
        }
        sum
    }

    /// How many bytes the pieces of the chunks before one have.
    fn weight_before(&self, end: usize) -> usize
        requires table { IsTable (table_of self.now) }
        requires within { end ≤ length (table_of self.now).chunks }
        ensures { result ≡ weight (table_of self.now).slots (all_ids (take end (table_of self.now).chunks)) }
    {
        let mut sum = 0;
        for k in 0..end {
            sum += self.bytes_in(k);
        }
        sum
    }

    /// How many bytes the pieces before a place of a chunk have, counted from the nearer end of the chunk.
    fn weight_to(&self, chunk: usize, place: usize) -> usize
        requires table { IsTable (table_of self.now) }
        requires within { chunk < length (table_of self.now).chunks }
        requires inside { place ≤ length (ids_at (table_of self.now).chunks chunk) }
        ensures { result ≡ weight (table_of self.now).slots (take place (ids_at (table_of self.now).chunks chunk)) }
    {
        let ids = self.ids_in(chunk);
        if place > ids.len() / 2 {
            return self.bytes_in(chunk) - self.weight(&ids[place..], chunk);
        }
        self.weight(&ids[..place], chunk)
    }

    /// How many bytes the pieces of a new list of a chunk have: the old one with others in the place of so many from a place of it on.
    /// Only these are counted.
    pub(crate) fn weight_anew(
        &self,
        chunk: usize,
        ids: &[StmtId],
        place: usize,
        gone: usize,
    ) -> usize
        requires table { IsTable (table_of self.now) }
        requires within { chunk < length (table_of self.now).chunks }
        requires inside { place + gone ≤ length (ids_at (table_of self.now).chunks chunk) }
        requires kept { AreHome (table_of self.now).slots chunk ids.now }
        requires fits { weight (table_of self.now).slots ids.now ≤ MAX_TEXT }
        requires is { IsAnew (ids_at (table_of self.now).chunks chunk) place gone ids.now }
        ensures { result ≡ weight (table_of self.now).slots ids.now }
    {
        let old = self.ids_in(chunk);
        let end = ids.len() - (old.len() - (place + gone));
        let less = self.weight(&old[place..place + gone], chunk);
        let more = self.weight(&ids[place..end], chunk);
        self.bytes_in(chunk) - less + more
    }

    /// Where the piece of a statement begins.
    pub(crate) fn start_of(&self, id: StmtId) -> Option<usize>
        requires { IsTable (table_of self.now) }
        ensures { result ≡ start_in (table_of self.now).slots 0 id (ids_of (table_of self.now)) }
    {
        let Some((chunk, place)) = self.place(id) else {
            return None;
        };
        Some(self.weight_before(chunk) + self.weight_to(chunk, place))
    }

    /// The statement whose piece has a position, among some numbers of which the first's piece begins at a position, and where
    /// its piece begins.
    fn at_in(
        &self,
        ids: &[StmtId],
        chunk: usize,
        from: usize,
        pos: usize,
    ) -> Option<(StmtId, usize)>
        requires kept { AreHome (table_of self.now).slots chunk ids.now }
        requires fits { from + weight (table_of self.now).slots ids.now ≤ MAX_TEXT }
        ensures { result ≡ piece_at (table_of self.now).slots from pos ids.now }
    {
        let mut start = from;
        for id in ids {
            let end = start + self.pieces[id.0].bytes.len();
            if pos < end {
                return Some((*id, start));
            }
            start = end;
        }
        None
    }

    /// The statement whose piece has a position, and where its piece begins.
    pub(crate) fn at(&self, pos: usize) -> Option<(StmtId, usize)>
        requires { IsTable (table_of self.now) }
        ensures { result ≡ piece_at (table_of self.now).slots 0 pos (ids_of (table_of self.now)) }
    {
        let mut start = 0;
        for k in 0..self.chunk_count() {
            let end = start + self.bytes_in(k);
            if pos < end {
                return self.at_in(self.ids_in(k), k, start, pos);
            }
            start = end;
        }
        None
    }

    /// The statement from a place of a chunk on before which so many others stand there.
    pub(crate) fn id_from(&self, chunk: usize, place: usize, count: usize) -> Option<StmtId>
        requires { place ≤ length (ids_at (table_of self.now).chunks chunk) }
        ensures { result ≡ slice_get (ids_from (table_of self.now).chunks chunk place) count }
    {
        let mut place = place;
        let mut left = count;
        for k in chunk..self.chunk_count() {
            let ids = self.ids_in(k);
            if left < ids.len() - place {
                return Some(ids[place + left]);
            }
            left -= ids.len() - place;
            place = 0;
        }
        None
    }

    /// So many numbers from a place of a chunk on, or those that there are.
    pub(crate) fn ids_at_most(
        &self,
        alloc: A,
        chunk: usize,
        place: usize,
        count: usize,
    ) -> Result<Vec<StmtId, A>, AllocError>
        requires { place ≤ length (ids_at (table_of self.now).chunks chunk) }
        ensures { IfOk result (λ v. v.items ≡ take count (ids_from (table_of self.now).chunks chunk place)) }
    {
        let mut ids = Vec::new(alloc);
        for k in 0..count {
            let Some(id) = self.id_from(chunk, place, k) else {
                return Ok(ids);
            };
            let Ok(()) = ids.push(id) else {
                return Err(AllocError);
            };
        }
        Ok(ids)
    }

    /// How many statements stand from a place of a chunk on.
    pub(crate) fn count_from(&self, chunk: usize, place: usize) -> usize
        requires within { chunk < length (table_of self.now).chunks }
        requires inside { place ≤ length (ids_at (table_of self.now).chunks chunk) }
        requires few { length (ids_of (table_of self.now)) ≤ MAX_TEXT }
        ensures { result ≡ length (ids_from (table_of self.now).chunks chunk place) }
    {
        let mut count = self.ids_in(chunk).len() - place;
        for k in chunk + 1..self.chunk_count() {
            count += self.ids_in(k).len();
        }
        count
    }

    /// The first of some numbers whose piece ends at a position or behind it, or the end of them, and where it begins, where the
    /// first's piece begins at a position.
    fn first_in(&self, ids: &[StmtId], chunk: usize, from: usize, pos: usize) -> (usize, usize)
        requires kept { AreHome (table_of self.now).slots chunk ids.now }
        requires fits { from + weight (table_of self.now).slots ids.now ≤ MAX_TEXT }
        ensures inside { result.0 ≤ length ids.now }
        ensures start { result.1 ≡ from + weight (table_of self.now).slots (take result.0 ids.now) }
        ensures low { 0 < result.0 → result.1 < pos }
        ensures high { result.0 < length ids.now → pos ≤ result.1 + weight (table_of self.now).slots (take 1 (drop result.0 ids.now)) }
    {
        let mut start = from;
        for i in 0..ids.len() {
            let end = start + self.pieces[ids[i].0].bytes.len();
            if pos <= end {
                return (i, start);
            }
            start = end;
        }
        (ids.len(), start)
    }

    /// The same as `first_in`, looked for from the last of the numbers on, whose piece ends at a position.
    fn first_from_end(
        &self,
        ids: &[StmtId],
        chunk: usize,
        from: usize,
        end: usize,
        pos: usize,
    ) -> (usize, usize)
        requires kept { AreHome (table_of self.now).slots chunk ids.now }
        requires whole { end ≡ from + weight (table_of self.now).slots ids.now }
        ensures inside { result.0 ≤ length ids.now }
        ensures start { result.1 ≡ from + weight (table_of self.now).slots (take result.0 ids.now) }
        ensures low { 0 < result.0 → result.1 < pos }
        ensures high { result.0 < length ids.now → pos ≤ result.1 + weight (table_of self.now).slots (take 1 (drop result.0 ids.now)) }
    {
        let mut i = ids.len();
        let mut start = end;
        while i > 0 && pos <= start {
            i -= 1;
            start -= self.pieces[ids[i].0].bytes.len();
        }
        (i, start)
    }

    /// The first number of a chunk whose piece ends at a position or behind it, or the end of the chunk, and where it begins. It is
    /// looked for from the nearer end.
    fn first_near(&self, chunk: usize, from: usize, pos: usize) -> (usize, usize)
        requires table { IsTable (table_of self.now) }
        requires within { chunk < length (table_of self.now).chunks }
        requires start { from ≡ weight (table_of self.now).slots (all_ids (take chunk (table_of self.now).chunks)) }
        ensures inside { result.0 ≤ length (ids_at (table_of self.now).chunks chunk) }
        ensures start { result.1 ≡ from + weight (table_of self.now).slots (take result.0 (ids_at (table_of self.now).chunks chunk)) }
        ensures low { 0 < result.0 → result.1 < pos }
        ensures high { result.0 < length (ids_at (table_of self.now).chunks chunk) → pos ≤ result.1 + weight (table_of self.now).slots (take 1 (drop result.0 (ids_at (table_of self.now).chunks chunk))) }
    {
        let ids = self.ids_in(chunk);
        let len = self.bytes_in(chunk);
        if pos > from + len / 2 {
            return self.first_from_end(ids, chunk, from, from + len, pos);
        }
        self.first_in(ids, chunk, from, pos)
    }

    /// The first chunk whose pieces end at a position or behind it, or the last, and where they begin.
    fn chunk_touched(&self, pos: usize) -> (usize, usize)
        requires table { IsTable (table_of self.now) }
        requires some { 0 < length (table_of self.now).chunks }
        ensures within { result.0 < length (table_of self.now).chunks }
        ensures start { result.1 ≡ weight (table_of self.now).slots (all_ids (take result.0 (table_of self.now).chunks)) }
        ensures low { 0 < result.0 → result.1 < pos }
        ensures high { result.0 + 1 < length (table_of self.now).chunks → pos ≤ weight (table_of self.now).slots (all_ids (take (result.0 + 1) (table_of self.now).chunks)) }
    {
        let last = self.chunk_count() - 1;
        let mut start = 0;
        for k in 0..last {
            let end = start + self.bytes_in(k);
            if pos <= end {
                return (k, start);
            }
            start = end;
        }
        (last, start)
    }

    /// The first piece that ends at a position or behind it, or the end of all.
    pub(crate) fn first_touched(&self, pos: usize) -> Place
        requires table { IsTable (table_of self.now) }
        requires some { 0 < length (table_of self.now).chunks }
        ensures { BeginsAt (table_of self.now) pos result }
    {
        let (chunk, from) = self.chunk_touched(pos);
        let (index, start) = self.first_near(chunk, from, pos);
        Place {
            chunk,
            index,
            start,
        }
    }

    /// The first number of the chunks from one on.
    fn first_from(&self, from: usize) -> Option<StmtId>
        requires { from ≤ length (table_of self.now).chunks }
        ensures { result ≡ first_id (all_ids (drop from (table_of self.now).chunks)) }
    {
        for k in from..self.chunk_count() {
            let ids = self.ids_in(k);
            if ids.len() > 0 {
                return Some(ids[0]);
            }
        }
        None
    }

    /// The last number of the chunks before one.
    fn last_before(&self, end: usize) -> Option<StmtId>
        requires { end ≤ length (table_of self.now).chunks }
        ensures { result ≡ last_id (all_ids (take end (table_of self.now).chunks)) }
    {
        let mut k = end;
        while k > 0 {
            k -= 1;
            let ids = self.ids_in(k);
            if ids.len() > 0 {
                return Some(ids[ids.len() - 1]);
            }
        }
        None
    }

    /// The first statement.
    pub(crate) fn first(&self) -> Option<StmtId>
        ensures { result ≡ first_id (ids_of (table_of self.now)) }
    {
        self.first_from(0)
    }

    /// The statement after one.
    pub(crate) fn next(&self, id: StmtId) -> Option<StmtId>
        requires { IsTable (table_of self.now) }
        ensures { result ≡ id_after id (ids_of (table_of self.now)) }
    {
        let Some((chunk, place)) = self.place(id) else {
            return None;
        };
        let ids = self.ids_in(chunk);
        if place + 1 < ids.len() {
            return Some(ids[place + 1]);
        }
        self.first_from(chunk + 1)
    }

    /// The statement before one.
    pub(crate) fn prev(&self, id: StmtId) -> Option<StmtId>
        requires { IsTable (table_of self.now) }
        ensures { result ≡ id_before id (ids_of (table_of self.now)) }
    {
        let Some((chunk, place)) = self.place(id) else {
            return None;
        };
        if place > 0 {
            return Some(self.ids_in(chunk)[place - 1]);
        }
        self.last_before(chunk)
    }
}

impl<A: Allocator + Copy> PieceTable<A> {
    /// The numbers of the statements that stand, in their order.
    pub(crate) fn numbers(&self, alloc: A) -> Result<Vec<StmtId, A>, AllocError>
        ensures { IfOk result (λ ids. ids.items ≡ ids_of (table_of self.now)) }
    {
        let Ok(mut ids) = Vec::with_capacity(alloc, self.pieces.len()) else {
            return Err(AllocError);
        };
        for chunk in &self.chunks {
            let Ok(()) = ids.extend_from_slice(&chunk.ids) else {
                return Err(AllocError);
            };
        }
        Ok(ids)
    }
}
