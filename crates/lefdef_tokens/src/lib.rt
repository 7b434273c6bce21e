//! The tokens of LEF and DEF texts, and cursors over the tokens of one statement.
//!
//! Begin with `TokenRun::of_text`, all tokens of a text, or with `Scanner`, which gives them one at a time; then
//! `Cursor::start` reads a run from left to right, a word at each call. `skip_plain` only counts tokens, up to where the
//! next `;` may stand, many bytes at a time. A cursor knows where the next token stands; where a certain kind of word is
//! expected, `Cursor::past` gives `Unseen`, which tries that kind without a look at other tokens.
//!
//! What the tokens of a text are is said in `statement_model/specs/Tokens`, what reading a word gives in
//! `form_meanings/specs/Words`, and how a cursor is seen there in `specs/Views` (`rest_of`, `words_of`). `specs/Laws`
//! has three laws of whole texts, and `specs/Skipping` says what `skip_plain` passes. A token lends its bytes from the text and knows where they stand (`IsIn`); runs and
//! cursors are copies of a few words over the same text, and nothing takes memory.
//!
//! A text may be refused for a byte that no token has, or for a string that is not closed: `FaultCode::RefusedByte`
//! and `OpenString`. A cursor answers `None` where its next token isn't what is asked for.
#![tactic(auto)]

mod bytes;
mod cursor;
mod expected;
mod lanes;
mod laws;
mod part_end;
mod plain;
mod runs;
mod scanner;
mod span;
mod step;
mod stops;
mod token;
mod token_run;
mod unseen;
mod windows;
mod words;

pub use bytes::is_white;
pub use cursor::Cursor;
pub use laws::{tokens_are_slices, tokens_join, tokens_move, tokens_of_runs};
pub use part_end::PartEnd;
pub use plain::skip_plain;
pub use scanner::Scanner;
pub use span::Span;
pub use step::token_at;
pub use token::Token;
pub use token_run::TokenRun;
pub use unseen::Unseen;
pub use words::{is_name, is_place, is_plain, is_plus, is_quoted, is_semicolon, is_stop, is_word};
