//! How the parts of each net hang together, and the lines `open`, `unrouted` and `floating`.
//!
//! Begin with `put_class_lines`, which puts the lines on each net of a list behind others; `class_lines` of
//! `connection_rules/specs/NetLines` says which. `classes_of` counts the classes of one net's parts: two parts are of one class
//! where shapes of theirs lie on one layer and share a point, and so on from part to part
//! (`connection_rules/specs/PartClasses`). `net_classes_of` says with it whether the net is drawn, and `put_lines_of_classes` puts
//! the lines that follow from both.
//!
//! Nothing is lent, and the memory that a net takes is given back before the next one. The one error is `AllocError`; the lines
//! of some nets may then have been put.
#![tactic(auto)]

mod class_counts;
mod class_lines;
mod part_shapes;

pub use class_counts::classes_of;
pub use class_lines::{NetClasses, net_classes_of, put_class_lines, put_lines_of_classes};
