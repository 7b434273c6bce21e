//! An editor session over a chip design kept as its LEF and DEF text.
//!
//! Begin with `session::Session::open`, on a library that was read and a DEF text; then `edit`, `text_edit`, `statement`,
//! `diagnostics`, `printed_diagnostics`, `net_length`, `net_box`, `total_length`, `cell`, `place_cell` and `write_to`. What the calls
//! say is `specs/Sessions`, over `Runs` of `edit_rules`, `Diagnostics` of `report_rules` and the definitions of `measure_rules`: every
//! answer is that of reading the present text afresh, and each text of a session reads.
//!
//! A session borrows its library and keeps a copy of the text, of which it lends entries (`view::View`), what was measured of it since the
//! first question on measures, and the lines of diagnostics. These follow an edit part by part: lines on statements by the statements that
//! it exchanges (`followed_statements`), lines on components by the components that it touches (`followed_places`), lines on nets by the
//! nets that it touches (`followed_nets`), and what was measured by the net or the component that it is of (`followed_measures`).
//! `specs/Tests` says how many pairs of rectangles are compared for an edit at most. `open` answers `ReadError` (the text's fault, or refused memory), an edit
//! `EditRefusal`, and then the text is as it was, `diagnostics`, `printed_diagnostics` and questions on measures answer `AllocError`, and `write_to`
//! `WriteFault`, where a first part of the text was written. Offsets of a text edit are bytes from 0, with the end after the last byte.
#![tactic(auto)]

mod change;
mod drawn_nets;
mod known_lines;
mod measures;
mod nets;
mod no_nets;
mod noted;
mod part;
mod places;
mod report;
pub mod session;
mod statements;
pub mod view;
