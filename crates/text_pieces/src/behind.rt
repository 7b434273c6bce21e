//! What stands behind a place of a text in pieces, a segment at a time.

ghost use Rattle.std.specs.Prelude.{◌≡◌, ◌<◌, ◌≤◌, drop, length};
ghost use Rattle.design_model.specs.declared.TheConstants.{MAX_TEXT};
ghost use Rattle.text_pieces.specs.Behind.{kept_from, segments};
ghost use Rattle.text_pieces.specs.Chunks.{ids_at};
ghost use Rattle.text_pieces.specs.Tables.{IsTable, ids_of, table_of};

use crate::table::PieceTable;
use design_model::mode::Mode;
use rereading::segments::{Segment, Segments};
use std::alloc::{Allocator, Global};
use std::marker::Model;

/// The statements from a place of a chunk on, and what stands behind the last of them.
#[derive(Drop)]
pub(crate) struct Behind<'t, A: Allocator = Global> {
    table: &'t PieceTable<A>,
    tail: &'t [u8],
    chunk: usize,
    place: usize,
    // How many statements these are.
    count: usize,
    // How many segments are left out, from the first.
    passed: usize,
}

impl<'t, A: Allocator> Model for Behind<'t, A> {
    ghost use Rattle.std.specs.Prelude.{◌≡◌, ◌≤◌, ◌<◌, ◌+◌, ◌^◌, List, drop, length};
    ghost use Rattle.rereading.specs.Segments.{OldBytes};

    ghost Value = { List OldBytes };

    ghost use Rattle.text_pieces.specs.Behind.{ids_from, kept_from, segments};
    ghost use Rattle.text_pieces.specs.Chunks.{ids_at};
    ghost use Rattle.text_pieces.specs.Tables.{IsTable, table_of};

    ghost view = { λ b. drop b.passed (segments (kept_from (table_of b.table.now) b.chunk b.place) b.tail.now) };

    ghost invariant = { λ b.
        IsTable (table_of b.table.now)
        × (b.place ≤ length (ids_at (table_of b.table.now).chunks b.chunk))
        × (b.count ≡ length (ids_from (table_of b.table.now).chunks b.chunk b.place))
        × (b.count < 2 ^ 63)
        × (b.passed ≤ b.count + 1) };
}

impl<'t, A: Allocator> Behind<'t, A> {
    /// What stands from a place of a chunk on.
    pub(crate) fn from_place(
        table: &'t PieceTable<A>,
        tail: &'t [u8],
        chunk: usize,
        place: usize,
    ) -> Behind<'t, A>
        requires table { IsTable (table_of table.now) }
        requires within { chunk < length (table_of table.now).chunks }
        requires inside { place ≤ length (ids_at (table_of table.now).chunks chunk) }
        requires few { length (ids_of (table_of table.now)) ≤ MAX_TEXT }
        ensures { result ≡ segments (kept_from (table_of table.now) chunk place) tail.now }
    {
        Behind {
            table,
            tail,
            chunk,
            place,
            count: table.count_from(chunk, place),
            passed: 0,
        }
    }

    /// What stands behind so many of these segments.
    pub(crate) fn after(&self, passed: usize) -> Behind<'t, A>
        requires { passed ≤ length self.now }
        ensures { result ≡ drop passed self.now }
    {
        Behind {
            table: self.table,
            tail: self.tail,
            chunk: self.chunk,
            place: self.place,
            count: self.count,
            passed: self.passed + passed,
        }
    }
}

impl<'t, A: Allocator> Segments for Behind<'t, A> {
    ghost listed = { λ b. b };

    fn segment(&self, k: usize) -> Option<Segment<'_>> {
        if k >= self.count + 1 - self.passed {
            return None;
        }
        let Some(id) = self.table.id_from(self.chunk, self.place, self.passed + k) else {
            return Some(Segment {
                bytes: self.tail,
                mode: Some(Mode::After),
            });
        };
        let piece = &self.table.pieces[id.0];
        Some(Segment {
            bytes: piece.bytes.as_slice(),
            mode: Some(piece.mode),
        })
    }
}
