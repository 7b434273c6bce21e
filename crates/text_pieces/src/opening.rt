//! Opening a text: its statements are read once, each into a piece of its own.

ghost use Rattle.std.specs.Prelude.{◌≡◌, ◌≤◌, [], length, map, option_map};
ghost use Rattle.text_pieces.specs.Opening.{EndsLast, NextPiece, ReadsChunk};
ghost use Rattle.text_pieces.specs.Tables.{kept};

use crate::bytes::Block;
use crate::chunks::Chunk;
use crate::storing::keep;
use crate::table::Piece;
use crate::told::Told;
use def_reader::read_statement::{Read, read_statement};
use design_model::fault::{Fault, ReadError};
use design_model::mode::Mode;
use piece_laws::chains::{chains_join, chains_lead};
use piece_laws::pieces::{pieces_are_read, statements_are_pieces, statements_end_before_blanks};
use slab::Slab;
use std::alloc::{Allocator, Global};

/// How many statements a chunk has where a text is opened: about as many as a text of a million has chunks, so that a search
/// goes over as many numbers as lengths.
pub(crate) const CHUNK: usize = 1000;

/// How many bytes a text has at least that is opened with room for its pieces, so that they aren't moved as they come.
const LARGE: usize = 1048576;

/// How many bytes a piece of such a text is taken to have.
const PIECE: usize = 200;

/// A chunk that was read, the mode and the position after its last statement, and whether no statement is left there.
#[derive(Drop)]
pub(crate) struct Part<A: Allocator = Global> {
    pub(crate) chunk: Chunk<A>,
    pub(crate) mode: Mode,
    pub(crate) pos: usize,
    pub(crate) is_last: bool,
}

/// No pieces, with room for about those of a text where it is large and there is memory for it.
pub(crate) fn room_for<A: Allocator + Copy>(alloc: A, text: &[u8]) -> Slab<Piece<A>, A>
    ensures { result.slots ≡ [] }
{
    let mut pieces = Slab::new(alloc);
    if text.len() >= LARGE {
        let _ = pieces.reserve_exact(text.len() / PIECE);
    }
    pieces
}

/// The next statement from a position on, which is a piece up to its last byte.
#[inline(always)]
fn next_piece<'t>(mode: Mode, text: &'t [u8], pos: usize) -> Result<Option<Read<'t>>, Fault>
    requires { pos ≤ length text.now }
    ensures { NextPiece mode text.now pos result }
{
    statements_are_pieces();
    statements_end_before_blanks();
    read_statement(mode, text, pos)
}

/// Reads the statements of a text from a position on, as many as a chunk has or as there are, keeps their pieces, and tells each.
pub(crate) fn read_chunk<A: Allocator + Copy, T: Told>(
    alloc: A,
    block: &Block<A>,
    from: usize,
    first: Mode,
    number: u32,
    pieces: &mut Slab<Piece<A>, A>,
    told: &mut T,
) -> Result<Part<A>, ReadError>
    requires { from ≤ length block.now }
    ensures reads { ReadsChunk T.says block.now first from number (map (option_map kept) pieces.old.slots) (map (option_map kept) pieces.new.slots) told.old told.new result }
    ensures last { EndsLast block.now from result }
{
    pieces_are_read();
    chains_join();
    chains_lead();
    let text = block.as_slice();
    let mut ids = Vec::new(alloc);
    let mut mode = first;
    let mut pos = from;
    'statements: while ids.len() < CHUNK {
        let found = match next_piece(mode, text, pos) {
            Ok(found) => found,
            Err(fault) => return Err(ReadError::Fault(fault)),
        };
        let Some(read) = found else {
            let chunk = Chunk {
                ids,
                len: pos - from,
            };
            return Ok(Part {
                chunk,
                mode,
                pos,
                is_last: true,
            });
        };
        let Ok(bytes) = block.part(pos, read.end) else {
            return Err(ReadError::Memory);
        };
        let piece = Piece {
            bytes,
            mode,
            chunk: number,
        };
        let Ok(id) = keep(pieces, &mut ids, piece) else {
            return Err(ReadError::Memory);
        };
        told.tell(id, &read.statement)?;
        mode = read.place;
        pos = read.end;
    }
    let chunk = Chunk {
        ids,
        len: pos - from,
    };
    Ok(Part {
        chunk,
        mode,
        pos,
        is_last: false,
    })
}
