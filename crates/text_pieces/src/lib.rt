//! A DEF text kept as the pieces of its statements, under numbers.
//!
//! Begin with `TextPieces::open`, which reads each statement of a text once, and keeps it with the blanks and comments before it
//! as a piece of its own. `statement`, `mode` and `offset` answer by a statement's number, `find_at` finds the one at a position,
//! `first`, `next` and `prev` go from one to another, `chunk` has those of some statements in a row, and `write_to` writes the text. `TextPieces::open_telling` tells each statement as it
//! is read, with its number, to what is `Told`, and takes a text as a `Block`, of which pieces are parts. `TextPieces::prepare`
//! prepares a change beside the text, as a `PreparedText`, which says how many statements were read for it, which numbers go out,
//! and which come in; `TextPieces::commit` makes it, takes no memory, and leaves the change that takes it back. `let_go` ends a
//! change, made or not, with the pieces that are kept for it alone; one that is dropped changes nothing, but they stay with the
//! text. `prepare_all` prepares several cuts as one change. Changes may be kept while others are prepared and made, and be made
//! once those are taken back: the laws of `lasting` say so.
//!
//! A text in pieces is seen as `Content` of `specs/Content`: `text_of` is its text, and `specs/Statements` says which statements
//! stand under which numbers. Its invariant is `IsText`: the pieces are chained, and the text reads but for what a text has once
//! or needs (`keyless` of `piece_laws`). `IsBetween` of `specs/Changes` says what a prepared change is, and `Prepares` of
//! `specs/Preparing` what preparing one answers. What an edit touches is read again, and as much behind it as is needed until
//! an old statement goes on, by `rereading`: no more statements than those of `new_stretch` in `specs/NewStretches`.
//!
//! Bytes of statements are lent. A position is an offset in bytes from 0. `open` answers `ReadError`, the fault of the first
//! statement that can't be read or want of memory; `prepare` answers `PrepareError`; and `write_to` `WriteFault`, where a first part
//! of the text was written.
#![tactic(auto)]

mod behind;
pub mod bytes;
mod chunks;
pub mod lasting;
pub mod lent;
mod letting_go;
mod lists;
mod opening;
pub mod prepared;
mod storing;
mod stretch;
mod table;
pub mod text;
pub mod told;
mod writing;
