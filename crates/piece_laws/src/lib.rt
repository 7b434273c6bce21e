//! Laws of texts in pieces.
//!
//! A piece is the bytes of one statement with the blanks and comments before it, and is read by itself, at no place of a
//! text (`specs/Pieces`). Pieces that are chained, each in the mode to which the one before it leads, and that stand apart
//! are a text whose statements are theirs.
//!
//! Each law is an empty function that ensures it; call it to use it. Begin with `pieces`: pieces that are joined are read as
//! what they say, and are located at sums of their lengths; a statement that is read anywhere in a text is a piece, after
//! which come blanks or the end; and a fault of the first bytes of a text is that of the text. `chains` says how chains of
//! pieces are joined and parted and where they lead, and `keys` that which texts read is decided by their statements and by
//! their keys apart from one another. The laws are stated for DEF; but for one their proofs are for any grammar.
#![tactic(auto)]

pub mod chains;
pub mod keys;
pub mod pieces;
