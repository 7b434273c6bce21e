//! Laws of a report: what the order of its lines hangs on and what it doesn't, and the database units that it counts in.
//!
//! Each law is an empty function that ensures it; call it to use it. `sorting` has that the lines in the order of their
//! bytes are a function of which lines there are, each as often; `pairs` that the lines of all pairs of things are the
//! same in whatever order the things stand, and `each` that for each thing, and for each with each of another list; `one`
//! that one thing takes its own lines with it, and those with the others; `same` how to show that lines are the same, by
//! their parts or by a permutation; `kinds` that a line's text tells its kind; `scales` that a text that reads has database
//! units per micron in their range. What is said of lines and of things without their order is in `specs/Lines`.
#![tactic(auto)]

pub mod each;
pub mod kinds;
pub mod one;
pub mod pairs;
pub mod same;
pub mod scales;
pub mod sorting;
