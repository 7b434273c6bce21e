//! Chunks of statement numbers.

ghost use Rattle.std.specs.Prelude.{◌≡◌, length, map};
ghost use Rattle.text_pieces.specs.Chunks.{ArePlaces, PlaceIn, exchanged, shown, shown_change};

use design_model::identifier::StmtId;
use std::alloc::{Allocator, Global};

/// The numbers of some statements in a row, and how many bytes their pieces have.
#[derive(Drop)]
pub(crate) struct Chunk<A: Allocator = Global> {
    pub(crate) ids: Vec<StmtId, A>,
    pub(crate) len: usize,
}

/// A chunk that is to take a place among others.
#[derive(Drop)]
pub(crate) struct Change<A: Allocator = Global> {
    pub(crate) place: usize,
    pub(crate) chunk: Chunk<A>,
}

/// Puts each chunk in its place, and takes what stood there. It takes no memory.
pub(crate) fn exchange<A: Allocator>(chunks: &mut [Chunk<A>], changes: &mut [Change<A>])
    requires { ArePlaces (length chunks.old) (map shown_change changes.old) }
    ensures chunks { map shown chunks.new ≡ (exchanged (map shown chunks.old) (map shown_change changes.old)).0 }
    ensures changes { map shown_change changes.new ≡ (exchanged (map shown chunks.old) (map shown_change changes.old)).1 }
{
    for i in 0..changes.len() {
        let place = changes[i].place;
        std::mem::swap(&mut chunks[place], &mut changes[i].chunk);
    }
}

/// Where a number stands among others.
pub(crate) fn place_in(ids: &[StmtId], id: StmtId) -> Option<usize>
    ensures { PlaceIn id ids.now result }
{
    for i in 0..ids.len() {
        if ids[i].0 == id.0 {
            return Some(i);
        }
    }
    None
}
