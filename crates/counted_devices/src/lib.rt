//! Readers and writers that count their failures, and the loops that read and write all of their bytes.
//!
//! Begin with `Counted::new`, and hand it to `read_whole`, `read_up_to` or `write_whole`. What they take from a reader
//! and give to a writer is said in `specs/Known.antt`, how failures are counted in `specs/Counting.antt`.
//! A device is lent to these calls and stays the caller's. The bytes that are read are a vector of its own.
//! `InputError` says why an input is not read, `WriteFault` that a write failed.
#![tactic(auto)]

pub mod counted;
pub mod input;
pub mod output;
