//! The lines of a report, while it is made.
//!
//! Begin with `Lines::new`; each `put` adds a line, made whole by one growth, and `into_sorted` gives them in the order of their
//! bytes. Contracts see `Lines` as the list of its texts, in the order in which they were put. What a line says is
//! `line_text` of `design_model/specs/Lines`. The one error is `AllocError`, and then the lines are as they were. `Checked` is what a
//! check of one thing gives.
#![tactic(auto)]

mod checked;
mod lines;

pub use checked::Checked;
pub use lines::Lines;
