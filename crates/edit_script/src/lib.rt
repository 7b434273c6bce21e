//! Running a script of edits and queries over LEF and DEF texts.
//!
//! Begin with `run::run`, or with `finished::run_owned`, which takes the DEF text and gives it back in the end. The LEF texts, the DEF text and the script are read in this order and to the end before the
//! first line is run; the answers go to one writer, and the text in the end to another. What is written is `Output` of
//! `report_rules`, and how a run ends is `specs/Ends`; `docs/SCRIPT.md` says it to those who write scripts.
//!
//! Devices are lent to the call, under the bounds `CountedRead` and `CountedWrite` that `Counted` meets, with fewer
//! than 2^63 failures; nothing is lent back. A run that comes to its end answers a `Tally`, refused and bad lines
//! counted. `RunFault` says why it stops else: a fault of a LEF or DEF text, a script that can't be read (`Read`,
//! `TooLong`, `Endless`), and then nothing was written; or `Memory` or `Write`, after a first part of the output.
#![tactic(auto)]

pub mod finished;
mod questions;
pub mod run;
