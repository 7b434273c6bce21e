//! Worked rows of covering, of rows of sites and of patterns: what the definitions say of small values, by computing.
//!
//! A crate of proofs, with no code. A definition of `place_rules` that comes to mean another thing leaves a row here
//! unproved.
#![tactic(auto)]
