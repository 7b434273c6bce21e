//! Worked examples of the definitions of `measure_rules`: lengths, boxes and densities of small DEF texts, by computing.
//!
//! A crate of proofs, with no code. `proofs/Measuring` says how an example is asked; `proofs/LengthRows` has lengths and boxes, and
//! `proofs/CellRows` cells. Each names what it computes with by `measure_words`.
#![tactic(auto)]
