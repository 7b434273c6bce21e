//! The lines on shapes of two nets that touch, and on drawn shapes where routing on their layer is blocked.
//!
//! Begin with `touching_lines`, which puts these lines of a whole design behind others: `pair_lines` of `short_of` and
//! `cross_lines` of `routeblock_of`, as `connection_rules/specs/NetLines` defines them, in an order that is left open. The nets come
//! as a `NetList`, blocked rectangles as `Barrier`s, and the names of layers by their places; the law `layers_have_their_names` says
//! that the names of all layers of a library are those of the definitions. `put_short` puts the line of two shapes, and
//! `put_routeblock` that of a shape and a barrier.
//!
//! Things of two layers have no lines, so layers are gone over one by one, each with a grid of its own. Nothing is lent. Each shape and
//! each barrier of one layer at a time takes 64 bytes, and what `for_meeting_pairs` of `shape_pairs` takes for these. The one error is
//! `AllocError`.
#![tactic(auto)]

mod barrier;
mod laws;
mod layer;
mod layers;
mod line;
mod shape;
mod thing;
mod things_on;
mod touching;

pub use barrier::Barrier;
pub use laws::layers_have_their_names;
pub use line::{put_routeblock, put_short};
pub use shape::ShapeOfNet;
pub use touching::touching_lines;
