//! All lines of a report, and what a script's run writes (own).
//!
//! A crate of definitions, with no code. `specs/Diagnostics` has the families of lines and `diagnostics`, all of them in the order
//! of their bytes; `specs/Output` a script's run, line by line.
#![tactic(auto)]
