//! Pieces that are put under numbers.

ghost use Rattle.std.specs.Prelude.{◌≡◌, IfOk, map, option_map};
ghost use Rattle.text_pieces.specs.Storing.{StaysKept, StoresAll, StoresBehind, news_of};
ghost use Rattle.text_pieces.specs.Tables.{kept};

use crate::bytes::Block;
use crate::table::Piece;
use design_model::identifier::StmtId;
use rereading::pieces::NewPiece;
use slab::Slab;
use std::alloc::{AllocError, Allocator};

/// A number of a chunk in four bytes. One that has more is refused as memory is.
pub(crate) fn small(chunk: usize) -> Result<u32, AllocError>
    ensures { IfOk result (λ n. n ≡ chunk) }
{
    if chunk > u32::MAX as usize {
        return Err(AllocError);
    }
    Ok(chunk as u32)
}

/// Keeps a piece, and puts its number, which is answered, behind others.
pub(crate) fn keep<A: Allocator + Copy>(
    pieces: &mut Slab<Piece<A>, A>,
    ids: &mut Vec<StmtId, A>,
    piece: Piece<A>,
) -> Result<StmtId, AllocError>
    ensures kept { IfOk result (StoresBehind (map (option_map kept) pieces.old.slots) (map (option_map kept) pieces.new.slots) (kept piece) ids.old.items ids.new.items) }
    ensures stays { StaysKept (map (option_map kept) pieces.old.slots) (map (option_map kept) pieces.new.slots) }
{
    if let Err(_) = pieces.reserve(1) {
        return Err(AllocError);
    }
    let id = StmtId(pieces.insert_reserved(piece));
    let Ok(()) = ids.push(id) else {
        return Err(AllocError);
    };
    Ok(id)
}

/// Keeps new pieces as those of a chunk, and puts their numbers behind others. What was kept stays, also where memory is
/// refused.
pub(crate) fn store_all<A: Allocator + Copy>(
    pieces: &mut Slab<Piece<A>, A>,
    ids: &mut Vec<StmtId, A>,
    new: Vec<NewPiece<A>, A>,
    chunk: u32,
) -> Result<(), AllocError>
    ensures kept { IfOk result (λ _. StoresAll (map (option_map kept) pieces.old.slots) (map (option_map kept) pieces.new.slots) (news_of chunk new.items) chunk ids.old.items ids.new.items) }
    ensures stays { StaysKept (map (option_map kept) pieces.old.slots) (map (option_map kept) pieces.new.slots) }
{
    for piece in new {
        let NewPiece { bytes, mode } = piece;
        let Ok(block) = Block::new(bytes) else {
            return Err(AllocError);
        };
        let Ok(bytes) = block.whole() else {
            return Err(AllocError);
        };
        let Ok(_id) = keep(pieces, ids, Piece { bytes, mode, chunk }) else {
            return Err(AllocError);
        };
    }
    Ok(())
}
