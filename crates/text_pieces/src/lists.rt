//! New lists of numbers for chunks.

ghost use Rattle.std.specs.Prelude.{◌≡◌, ◌<◌, ◌≤◌, ◌++◌, IfOk, length, map, take};
ghost use Rattle.design_model.specs.declared.TheConstants.{MAX_TEXT};
ghost use Rattle.text_pieces.specs.Chunks.{all_ids, ids_at, shown_change};
ghost use Rattle.text_pieces.specs.Lists.{AreLists, ids_left};
ghost use Rattle.text_pieces.specs.Preparing.{IsPut, put_bytes};
ghost use Rattle.text_pieces.specs.Storing.{StaysKept, news_of};
ghost use Rattle.text_pieces.specs.Tables.{AreChunks, AreHome, IsTable, table_of, weight};

use crate::chunks::{Change, Chunk};
use crate::storing::{small, store_all};
use crate::table::PieceTable;
use design_model::identifier::StmtId;
use rereading::pieces::NewPiece;
use std::alloc::{AllocError, Allocator};

/// The lists of the chunks from one on where so many numbers from a place of it on go out. Its own list begins with these numbers.
pub(crate) fn new_lists<A: Allocator + Copy>(
    alloc: A,
    table: &PieceTable<A>,
    chunk: usize,
    place: usize,
    out: usize,
    head: Vec<StmtId, A>,
) -> Result<Vec<Change<A>, A>, AllocError>
    requires table { IsTable (table_of table.now) }
    requires within { chunk < length (table_of table.now).chunks }
    requires inside { place ≤ length (ids_at (table_of table.now).chunks chunk) }
    requires home { AreHome (table_of table.now).slots chunk head.items }
    requires front { take place head.items ≡ take place (ids_at (table_of table.now).chunks chunk) }
    requires fits { weight (table_of table.now).slots ((all_ids (take chunk (table_of table.now).chunks) ++ head.items) ++ ids_left (table_of table.now).chunks chunk place out) ≤ MAX_TEXT }
    ensures { IfOk result (λ v. AreLists (table_of table.now).slots (table_of table.now).chunks ((all_ids (take chunk (table_of table.now).chunks) ++ head.items) ++ ids_left (table_of table.now).chunks chunk place out) (map shown_change v.items)) }
{
    let mut ids = head;
    let mut place = place;
    let mut left = out;
    let mut changes = Vec::new(alloc);
    for k in chunk..table.chunk_count() {
        let old = table.ids_in(k);
        let gone = left.min(old.len() - place);
        let Ok(()) = ids.extend_from_slice(&old[place + gone..]) else {
            return Err(AllocError);
        };
        let len = table.weight_anew(k, &ids, place, gone);
        let chunk = Chunk { ids, len };
        let Ok(()) = changes.push(Change { place: k, chunk }) else {
            return Err(AllocError);
        };
        if gone == left {
            return Ok(changes);
        }
        ids = Vec::new(alloc);
        left -= gone;
        place = 0;
    }
    Ok(changes)
}

/// Keeps new pieces, and makes the lists with which they take the place of so many from a place of a chunk on. It gives their
/// numbers too. What is kept stays, also where memory is refused.
pub(crate) fn place_new<A: Allocator + Copy>(
    alloc: A,
    table: &mut PieceTable<A>,
    chunk: usize,
    index: usize,
    out: usize,
    new: Vec<NewPiece<A>, A>,
) -> Result<(Vec<Change<A>, A>, Vec<StmtId, A>), AllocError>
    requires table { IsTable (table_of table.old) }
    requires within { chunk < length (table_of table.old).chunks }
    requires inside { index ≤ length (ids_at (table_of table.old).chunks chunk) }
    requires fits { length (put_bytes (table_of table.old) chunk index out (news_of chunk new.items)) ≤ MAX_TEXT }
    ensures put { IfOk result (λ x. IsPut (table_of table.old) (table_of table.new) chunk index out (news_of chunk new.items) (map shown_change x.0.items) x.1.items) }
    ensures chunks { (table_of table.new).chunks ≡ (table_of table.old).chunks }
    ensures stays { StaysKept (table_of table.old).slots (table_of table.new).slots }
{
    let Ok(number) = small(chunk) else {
        return Err(AllocError);
    };
    let Ok(mut head) = Vec::from_slice(alloc, &table.ids_in(chunk)[..index]) else {
        return Err(AllocError);
    };
    let Ok(()) = store_all(&mut table.pieces, &mut head, new, number) else {
        return Err(AllocError);
    };
    let Ok(ids) = Vec::from_slice(alloc, &head[index..]) else {
        return Err(AllocError);
    };
    let Ok(changes) = new_lists(alloc, table, chunk, index, out, head) else {
        return Err(AllocError);
    };
    Ok((changes, ids))
}
