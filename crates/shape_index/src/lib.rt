//! Sets of shapes that are searched by layer and rectangle.
//!
//! Begin with `TiledShapes::new`, a set that is searched by tiles, or `PlainShapes::new`, one that is searched from end to end;
//! both are a `ShapeSet`. `TiledShapes::of` makes a set of many shapes at once. Make room by `reserve`; `insert_reserved` then
//! takes no memory and picks a number, and `remove` gives the shape under a number back and keeps its room; `TiledShapes::find`
//! looks a shape's number up. `met_of` lists the shapes on a layer that meet a rectangle, and `for_met` folds over them. Rectangles
//! meet that share a point (`orient_geom::meets`), where touching is enough.
//!
//! What a set holds is `Shapes` of `specs/Shapes`, and what a search finds `met_by` there. It compares at least as many shapes as
//! it finds (`met_count`), and at most `near_count` of `specs/Tiles`, or all. The laws of `specs/TileLaws` say what tiles mean.
//!
//! Shapes and rectangles are copied, and nothing is lent but to the closure of `for_met`. Coordinates are in database units, any
//! that 64 bits hold. Want of memory is `AllocError`, of `of`, `reserve` and `met_of`, and leaves the shapes as they were.
#![tactic(auto)]

mod gaps;
mod laws;
mod met;
mod plain;
mod shape;
mod tile;
mod tile_order;
mod tiled;

pub use laws::{met_is_near, sizes_are_least, tiles_are_floors};
pub use met::met_of;
pub use plain::PlainShapes;
pub use shape::{Shape, ShapeSet};
pub use tiled::TiledShapes;
