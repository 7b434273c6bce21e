//! Edits of a design as values: what is asked, why it is refused, and the bytes that it changes.
//!
//! Begin with `edit::Edit`. `specs/Codes` has the numbers that refusals are printed by. What an edit does is defined in `edit_rules`.
//! Names and texts are lent by whoever asks.
#![tactic(auto)]

pub mod edit;
