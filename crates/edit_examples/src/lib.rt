//! Worked examples of the definitions of `edit_rules`: what edits make of small DEF texts, by computing.
//!
//! A crate of proofs, with no code. `proofs/EditedTexts` says how an example is said: the new text, which reads as the edited design.
//! `proofs/ComponentRows`, `SectionRows`, `TerminalRows` and `WiringRows` have the edits by groups, and `proofs/ScriptRows` the lines
//! of a script. Each names what it computes with by `edit_words`.
#![tactic(auto)]
