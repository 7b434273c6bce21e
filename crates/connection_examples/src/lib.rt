//! Worked examples of the definitions of `connection_rules`: the lines on the nets of small DEF texts, by computing.
//!
//! A crate of proofs, with no code. `proofs/NetTexts` has the library and how an example is said; `proofs/ClassRows` has what
//! hangs together, `proofs/ShortRows` what touches and what is blocked, and `proofs/PinRows` pins of components and of the
//! design. Each names what it computes with by `net_words` of `proofs/NetTexts`.
#![tactic(auto)]
