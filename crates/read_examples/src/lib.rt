//! Worked examples of how many statements are read at most where cuts of a small DEF text are made, by computing.
//!
//! A crate of proofs, with no code: `proofs/ReadRows`.
#![tactic(auto)]
