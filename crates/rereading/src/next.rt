//! The next statement of a window.

ghost use Rattle.std.specs.Prelude.{◌≤◌, length};
ghost use Rattle.rereading.specs.Steps.{Counts, NextPiece};

use def_reader::read_statement::read_statement;
use design_model::fault::Fault;
use design_model::mode::Mode;
use piece_laws::pieces::{statements_are_pieces, statements_end_before_blanks};

/// The next statement from a position on: the position after its last byte, and the mode after it. It is counted where it is
/// read to its end. Nothing else here reads statements.
pub(crate) fn next_piece(
    mode: Mode,
    text: &[u8],
    pos: usize,
    reads: &mut u64,
) -> Result<Option<(usize, Mode)>, Fault>
    requires within { pos ≤ length text.now }
    requires few { reads.old ≤ pos }
    ensures found { NextPiece mode text.now pos result }
    ensures counts { Counts reads.old result reads.new }
{
    statements_are_pieces();
    statements_end_before_blanks();
    let Some(read) = read_statement(mode, text, pos)? else {
        return Ok(None);
    };
    *reads += 1;
    Ok(Some((read.end, read.place)))
}
