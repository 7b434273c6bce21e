//! The wiring of nets, as edits of it see it: what the clauses of an entry are to it, and texts that say it.
//!
//! Begin with `wiring_clauses::EntryClauses::of`, the clauses of an entry that may have wiring, and with `wiring_text::is_wiring`,
//! whether a text is wiring clauses of a section alone. `wiring_clauses::any`, `is_barred` and `wiring_place` tell of clauses whether
//! one of them is what is asked, whether they bar from a change of their wiring, and where that stands among the tokens of its entry.
//! The definition is `NetEdits` of `edit_rules`; `specs/WiringViews` says how clauses are seen. Clauses lend from their text, nothing
//! takes memory, and there is no error.
#![tactic(auto)]

pub mod comments;
pub mod wiring_clauses;
pub mod wiring_text;
