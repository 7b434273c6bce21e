//! Tests of the command line and of the lines on standard error, as values. Runs of the program are cases.
//!
//! `command_lines` tries requests, and what clap says of those that are none; `outcomes` has the status of each outcome
//! and the line of each reason to stop.
#![tactic(auto)]

#[cfg(test)]
mod command_lines;
#[cfg(test)]
mod outcomes;
