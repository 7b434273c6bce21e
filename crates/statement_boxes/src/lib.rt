//! Boxes of statements that are searched by rectangle, each under the number of its statement.
//!
//! Begin with `StatementBoxes::of`, which makes a set of many boxes at once. `met` lists the statements whose boxes meet a
//! rectangle, where touching is enough, and `met_rects` these boxes; `insert` puts a box in, and `remove` takes one out by its
//! statement and its rectangle. A box that is put in twice is held twice.
//!
//! A set is the list of its boxes, in an order that is left open. What both list is `met_by` of `specs/Boxes`. They compare at least as
//! many boxes as they list (`met_count`), and at most `near_count` there. The law of `specs/BoxLaws` says that each box that meets a
//! rectangle is near it.
//!
//! Boxes are copied, and nothing is lent. Coordinates are in database units, any that 64 bits hold. Want of memory is
//! `AllocError`, of `of`, `insert`, `met` and `met_rects`, and leaves the boxes as they were.
#![tactic(auto)]

mod boxes;
mod laws;
mod rects;
mod statement_box;

pub use boxes::{MetStatements, StatementBoxes};
pub use laws::met_boxes_are_near;
pub use rects::MetRects;
pub use statement_box::StatementBox;
