//! The text of a design in pieces, with its tables by name.
//!
//! Begin with `DesignText::open`. It keeps the pieces of a text's statements under numbers, and tables of what each statement has to
//! do with names. A `DesignText` answers the look-ups of an edit (`def_splice::lookups::LookUps`) by the tables, and reads no
//! statement for them but those that it gives. What it gives lies in the text, with tokens over the bytes of the statement alone.
//! By the same tables it gives the entries of the design by their names (`has`, `component_named`, `via_named`, `rule_named`), and
//! those of nets that list a component (`entries_listing`) or a pin of the design (`entries_listing_pin`), and what a section's header
//! says with how many entries it has (`header_number`, `section_entries`); `design_is_read` says that this design is the one that the text reads as, and `laws` that a name
//! stands once in its section.
//!
//! An edit that was made is `Made`: it says which statements went out and which came in, exchange by exchange (`specs/Exchanges`); all
//! of them are kept until it is given back by `let_go`.
//!
//! It is seen as `Content` of `specs/DesignTexts`. Its invariant is `IsDesignText`: the text reads as a design, and the tables are
//! those of its statements under their numbers.
//!
//! Bytes of statements are lent. `open` answers `ReadError`, the fault of the text or want of memory; look-ups take none.
#![tactic(auto)]

mod editing;
pub mod entries;
mod entry_names;
mod headers;
pub mod laws;
mod listing;
mod look_ups;
pub mod made;
mod opening;
mod records;
mod replacing;
mod statements;
mod step;
pub mod text;
mod writing;
