//! The lines of a design's grid (LEF/DEF 5.8 Language Reference, "GCell Grid").
//!
//! Begin with `columns_of` and `rows_of`, which give the lines of all GCELLGRID statements along x and along y, as `columns` and `rows`
//! of `measure_rules/specs/GridCells`. Nothing is lent. The one error is `AllocError`.
#![tactic(auto)]

mod grid;

pub use grid::{columns_of, rows_of};
