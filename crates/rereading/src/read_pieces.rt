//! A whole text in pieces.

ghost use Rattle.rereading.specs.Texts.{ReadsPieces};

use crate::next::next_piece;
use crate::pieces::{WholeText, push_piece};
use design_model::fault::ReadError;
use design_model::mode::Mode;
use piece_laws::chains::{apart_joins, chains_join, chains_lead, modes_join};
use piece_laws::pieces::{pieces_are_read, tails_are_found, tails_may_end};
use std::alloc::Allocator;

/// Reads a whole text: its pieces, and the bytes behind them. Its fault is the text's, where names and sections may stand more
/// than once and `UNITS` may be lacking. The text isn't copied but for the pieces.
pub fn read_pieces<A: Allocator + Copy>(alloc: A, text: &[u8]) -> Result<WholeText<A>, ReadError>
    ensures { ReadsPieces text.now result }
{
    pieces_are_read();
    tails_are_found();
    tails_may_end();
    chains_join();
    chains_lead();
    modes_join();
    apart_joins();
    let mut pieces = Vec::new(alloc);
    let mut mode = Mode::Top;
    let mut pos = 0;
    let mut reads = 0;
    'statements: loop {
        match next_piece(mode, text, pos, &mut reads) {
            Ok(Some((end, after))) => {
                push_piece(alloc, &mut pieces, &text[pos..end], mode)?;
                mode = after;
                pos = end;
            }
            Ok(None) => break,
            Err(fault) => return Err(ReadError::Fault(fault)),
        }
    }
    Ok(WholeText {
        pieces,
        tail: Vec::from_slice(alloc, &text[pos..])?,
        reads,
    })
}
