//! Reads the statements of DEF texts, and whole DEF texts (LEF/DEF 5.8 Language Reference, "DEF Syntax").
//!
//! Begin with `read_def::read_def`, which says where the statements of a text stand, or what its fault is. Of a text that reads
//! `records::statements_of` gives all statements in order, and `records::component_named` the entry of a component.
//! `read_statement::read_statement` reads one statement. The parts of entries are in `place_parts`, `via_parts` and `wire_parts`.
//!
//! What statements say is defined in `def_grammar/specs/Records`, and `specs/StatementViews` says how a statement of the
//! program is seen there. Statements and their parts lend their tokens from the text that was read (`specs/Lent`).
//!
//! A text that doesn't read has a `Fault`. Where memory is refused, the answer is `ReadError::Memory` or `AllocError`.
#![tactic(auto)]

pub mod entry;
pub mod floor;
pub mod properties;
pub mod read_def;
pub mod read_statement;
pub mod records;
pub mod seen;
pub mod statement;
mod top;
