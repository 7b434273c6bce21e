//! Sums of areas for the cells of a grid, layer by layer.
//!
//! Begin with `GridLines::of`, the lines of one axis in order, and `CellSums::new` with the lines of both. `CellSums::add` adds the
//! area that each cell has in common with a rectangle, in a time that grows with the cells that the rectangle covers, or less, and
//! `CellSums::sum` gives the sum of a cell. Contracts see lines as the list that they are, and `CellSums` as the `CellTable` of
//! `specs/Tables`, where `Adds` says what `add` does to it; cells are those of `measure_rules/specs/GridCells`, and areas those of
//! `measure_rules/specs/Density`.
//!
//! Only cells that some rectangle covered take memory, in blocks of 64 sums, with a slot or two a block by which it is found again. A
//! sum takes 8 bytes. Before one could pass 64 bits, all sums are moved to others of 16 bytes beside them, which takes a time that grows
//! with all blocks; it comes where the areas of strips, each counted for every block that it is added to, come to 2^64 since the last time.
//!
//! A rectangle is added strip by strip, row by row. Cells of a row are 16 and 16 a chunk. Where a strip covers cells on both sides of a
//! chunk, its height is added once for the chunk, in other blocks; the sum of a cell is the areas that were added to it, and its width
//! by the heights that were added to its chunk. A tall rectangle, one that covers more than eight times as many rows as columns, is kept
//! by columns instead: its strips are columns, and it needs no block for each of its rows. What is kept by rows and by columns stands
//! in blocks of its own, so cells that were covered in both ways take memory in both. A line takes 8 bytes, and some 16 to 32 more in a
//! table by which lines are found.
//!
//! The one error is `AllocError`, of `add` alone, where memory is refused and where 2^64 - 1 rectangles were added already; what is
//! lent is copied out.
#![tactic(auto)]

mod block_places;
mod blocks;
mod cell_sums;
mod lines;
mod runs;
mod sheets;
mod stretch;

pub use cell_sums::CellSums;
pub use lines::GridLines;
