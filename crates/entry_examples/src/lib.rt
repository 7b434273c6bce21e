//! Worked rows of the definitions of `entry_rules`: the lines on small DEF texts, by computing.
//!
//! A crate of proofs, with no code. `proofs/EntryTexts` has the library and how a row is said, `proofs/PlaceEntryRows` the
//! lines on places, vias and rules, and `proofs/WireEntryRows` those on nets and special nets. A row names what it computes
//! with by a word of `proofs/Computing`. `proofs/ViaNotes` shows that the vias off their layer that are told of a wire are
//! those that its pieces note (`wire_rules/specs/Paths`).
#![tactic(auto)]
