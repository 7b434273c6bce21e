//! The program `defedit` over any runtime: its command line, its files, and how it ends.
//!
//! Begin with `program::end_of`, which is all that `main` calls. `command_line` reads the words, `files` the files,
//! `ending::run_to_end` runs the script and keeps the text for the output file, and `outcome` has the statuses and the
//! lines on standard error.
//!
//! The definitions are `specs/Endings` (a run as the program ends it) and `specs/Statuses`. A request borrows its paths
//! from the words of the command line, and a `Stop` borrows the path that it names. Why the program ends before a run
//! is over is a `Stop`; the output file is made only after a run to its end. What files do is in no contract.
#![tactic(auto)]

pub mod command_line;
pub mod ending;
mod files;
mod in_pieces;
pub mod outcome;
pub mod program;
