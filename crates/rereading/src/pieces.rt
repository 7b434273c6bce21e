//! What rereading gives.

ghost use Rattle.std.specs.Prelude.{◌≡◌, [], ◌∷◌, ◌++◌, OnOk};

use design_model::mode::Mode;
use std::alloc::{AllocError, Allocator, Global};

/// A statement with the blanks before it, and the mode in which it stands.
#[derive(Drop)]
pub struct NewPiece<A: Allocator = Global> {
    pub bytes: Vec<u8, A>,
    pub mode: Mode,
}

/// New pieces and the mode after them, the bytes behind them where all was read, how many segments were used up, how many
/// statements were read to their end, and how often one was tried again with more segments.
#[derive(Drop)]
pub struct Reread<A: Allocator = Global> {
    pub pieces: Vec<NewPiece<A>, A>,
    pub rest: Vec<u8, A>,
    pub mode: Mode,
    pub used: usize,
    pub reads: u64,
    pub again: u64,
}

/// A whole text: its pieces, the bytes behind them, and how many statements were read.
#[derive(Drop)]
pub struct WholeText<A: Allocator = Global> {
    pub pieces: Vec<NewPiece<A>, A>,
    pub tail: Vec<u8, A>,
    pub reads: u64,
}

/// Puts a piece with these bytes behind others.
pub(crate) fn push_piece<A: Allocator + Copy>(
    alloc: A,
    pieces: &mut Vec<NewPiece<A>, A>,
    bytes: &[u8],
    mode: Mode,
) -> Result<(), AllocError>
    ensures { OnOk result ((p : _) × (pieces.new.items ≡ pieces.old.items ++ p ∷ []) × (p.bytes.items ≡ bytes.now) × (p.mode ≡ mode)) }
{
    let bytes = Vec::from_slice(alloc, bytes)?;
    pieces.push(NewPiece { bytes, mode })?;
    Ok(())
}
