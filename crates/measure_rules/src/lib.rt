//! What is measured of a design: the lengths of nets, the boxes round them, and how dense the cells of its grid are.
//!
//! A crate of definitions, with no code. Begin with `specs/Lengths` (`net_length`, `total_length`), `specs/NetBoxes` (`net_box`) and
//! `specs/Density` (`cell_density`, `place_density`), which counts in the cells of `specs/GridCells`.
//!
//! Lengths and areas are in database units and in squares of them. Nothing fails: what there is no net, no layer or no cell for is
//! `None`.
#![tactic(auto)]
