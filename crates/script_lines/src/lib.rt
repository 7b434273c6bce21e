//! The lines of a script: what each asks, and the texts of its answers (own).
//!
//! Begin with `line::next_line` and `command::parse`; `answer` has the texts, and `escape` the bytes that a `text` line
//! puts. The definitions are `Script` of `edit_rules` and `Output` of `report_rules`: a parsed line asks exactly what they say, and an
//! answer is exactly the defined line. `docs/SCRIPT.md` says it to those who write scripts.
//!
//! A command borrows its names from its line. Parsing takes no memory and refuses nothing: a line that is no command is
//! `Command::Bad`, and one with an invalid range `Command::Refused`. The texts of answers, and escaped bytes, answer
//! `AllocError` where memory is refused.
#![tactic(auto)]

pub mod answer;
pub mod command;
mod component_edits;
pub mod escape;
pub mod line;
pub mod measured;
mod measures;
mod net_edits;
mod numbers;
mod section_edits;
