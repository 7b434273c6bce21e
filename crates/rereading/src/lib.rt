//! Reads a DEF text again from an edit on, and no further than needed.
//!
//! Begin with `reread::reread`. It reads the bytes with an edit in them, and then as many of the statements behind them as
//! are needed until a statement ends where an old one begins that stands in the same mode. What stands behind the edit it
//! asks of the trait `segments::Segments`, a segment at a time. With no segments it reads all bytes, as from `Mode::Top` on a
//! whole text; `read_pieces::read_pieces` does the same, and copies nothing but the pieces.
//!
//! `specs/Rereading` says what rereading gives (`IsReread`): pieces as `piece_laws` has them, the mode of each, and how many
//! segments were used up. No new piece begins where an old statement stands in its mode; as many statements are read to their
//! end as there are new pieces, and one is tried again at most once for each segment that is used up. `specs/Texts` says what a
//! whole text in pieces is.
//!
//! It takes memory for the new pieces, and for a window on the text while it reads. A window that doesn't hold a whole
//! statement grows by 1, 2, 4 and more segments, and gives back what stands behind the statement.
//!
//! Its fault is that of all bytes from the edit on, up to the end of the text, where names and sections may stand more than
//! once: an `Err(ReadError::Fault)`. Where memory is refused, the answer is `ReadError::Memory`.
#![tactic(auto)]

mod next;
pub mod pieces;
pub mod read_pieces;
pub mod reread;
pub mod segments;
mod whole;
mod window;
