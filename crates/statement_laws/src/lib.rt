//! Laws of statements, of reading them, and of texts of them.
//!
//! Each law is an empty function that ensures it; call it to use it. `statements` has where statements end and how they
//! are read one after the other, `texts` the same of texts one after the other, and `forms` that what is read is
//! spelled so. The laws that take a grammar are stated for that of DEF, and in `lef` for that of LEF; their proofs are for any.
#![tactic(auto)]

pub mod forms;
pub mod lef;
pub mod statements;
pub mod texts;
