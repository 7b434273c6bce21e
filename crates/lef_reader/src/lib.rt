//! Reads the statements of LEF texts (LEF/DEF 5.8 Language Reference, "LEF Syntax").
//!
//! Begin with `events::LefEvents`, which gives the statements of a text in order, or with `read_lef::read_lef_statement`,
//! one statement from a position on, in its block; `statement::LefStatement` is what it says. Each block has its file, with
//! its statements and their forms; `kept_blocks` has those whose statements mean nothing, `block` the blocks that are open.
//!
//! What a text says is in `lef_grammar/specs/LefRecords`, a file a block; `specs` has the views of the statements as its
//! records, and `specs/Events` what is left of a text. `laws` says that the events of a text are its records.
//! `statement_reader` reads whole texts by `LefStatement`, which implements `grammar::Statement`.
//! A statement lends its tokens from the text and takes no memory; numbers stay words.
//!
//! A fault is one of the tokens, a statement that doesn't end or a block that is open where the text ends (`Unfinished`),
//! a statement without a form of its block (`NoForm`), or an invalid number (`Number`), at its position; of a text also
//! that it is too long. A header of a VIA or a VIARULE without a name has first the fault of the tokens behind it, up to
//! where it ends (`header_words`). After a fault `LefEvents` answers it for good.
#![tactic(auto)]

pub mod block;
pub mod events;
mod header_words;
pub mod kept_blocks;
pub mod laws;
pub mod layer_block;
pub mod macro_block;
pub mod outermost;
mod parts;
pub mod pin_block;
pub mod point;
pub mod port_block;
pub mod read_lef;
pub mod rule_block;
pub mod site_block;
pub mod statement;
pub mod via_block;
