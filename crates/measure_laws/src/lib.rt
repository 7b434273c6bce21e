//! Laws of measures: of the lengths of nets, of the boxes round their shapes, and of densities over a grid.
//!
//! Each law is an empty function that ensures it; call it to use it. `lengths` has that the lengths of all nets are those of
//! all entries, and that in a text that reads they fit a `u64` together. `boxes` has that the box round rectangles is the
//! least, `grids` that lines in order are one list, and that what a rectangle has in common with all cells is its area.
//! `densities` has how densities grow with their shapes, and `ranges` that those of the cells of a text that reads fit a
//! `u128`.
#![tactic(auto)]

pub mod boxes;
pub mod densities;
pub mod grids;
pub mod lengths;
pub mod ranges;
