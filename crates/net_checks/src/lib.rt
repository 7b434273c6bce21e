//! The lines on the nets of a design: on shapes of two nets that touch, on wires where routing is blocked, and on what hangs
//! together in each net.
//!
//! Begin with `NetDrawing::new`, whose `put_lines` puts them all behind others. They are `net_lines` of
//! `connection_rules/specs/NetLines`, in an order that is left open. `NetDrawing::barred` is the same with rectangles of the caller's, and
//! `barriers_of` has those of statements. The nets come from `design_nets`, the lines on shapes from `net_touches`, and those on classes from
//! `net_classes`.
//!
//! `put_counted_lines` puts the same lines, and says how many pairs of shapes were compared to find how the parts of each net hang together,
//! by tiles (`net_queries`): no more than are near each other, and no fewer than meet (`specs/NearWithin`). What is compared with shapes of
//! other nets and with rectangles isn't counted there.
//!
//! A `NetDrawing` holds the design's nets with all their shapes, and its blockages on layers; while it is made, the design's vias too.
//! It borrows names from the texts, and nothing from the `Names` that it is made from. The one error is `AllocError`.
#![tactic(auto)]

mod barriers;
mod counted;
pub mod layer_names;
mod net_lines;

pub use barriers::barriers_of;
pub use net_lines::NetDrawing;
