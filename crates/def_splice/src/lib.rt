//! The bytes that an edit changes.
//!
//! Begin with `splices::looked_up_splices`, the splices of an edit of a text. Each group of edits has a module: `component`, `net`,
//! `wiring` and `section`. The statements that an edit is about are asked of whatever answers a trait, `lookups::LookUps`. A
//! statement lies in the text (`lying::Lying`, `specs/Lying`): its tokens may be over its own bytes alone. The definition is `Edits`
//! of `edit_rules`: an edit is a plan (`Plans`), why it is refused and which statements it changes. A refusal is an `EditRefusal`,
//! the lowest that applies, and want of memory comes after the refusals that need none.
#![tactic(auto)]

pub mod component;
mod fitting;
pub mod lookups;
pub mod lying;
mod names;
pub mod net;
mod place;
mod put;
pub mod section;
mod section_texts;
pub mod splices;
mod terminals;
mod token_splices;
pub mod wiring;
