//! Writing a file so that nothing is lost.
//!
//! Begin with `write_file`, which takes what is a `FileText`. A plain file, also one that a link leads to, is written beside itself
//! into a new file, which then takes its name; so it has its old bytes or all of the new ones, whatever fails. A device, a pipe, and
//! a link that leads nowhere are written in place. `plain_file` tells whether two paths lead to one file.
//!
//! What files do can't be said by a contract: that the file holds the text is shown by tests. The path of a new file is
//! `specs/Beside`. Nothing is lent. The errors are `OutputFault::Make`, `OutputFault::Write` and `OutputFault::Memory`.
#![tactic(auto)]

mod beside;
mod identity;
mod writing;

pub use identity::{FileId, plain_file};
pub use writing::{FileText, OutputFault, write_file};
