//! Shapes under the places of their owners, searched by tiles.
//!
//! Begin with `PlacedShapes::of`. Shapes of one owner are put in by `insert` and taken out by `remove`; `touched` has the owners of the
//! shapes that touch others, and `touched_places` also says how many shapes it compared; `tiles` lends the set for any other search. An
//! owner is whatever its caller numbers: a net by its name, or a part of a net. Contracts see the set as a list of shapes, each with its
//! owner's place (`specs/Placed`), in an order that is left open.
//!
//! Nothing is lent but the set. The one error is `AllocError`, after which some of the shapes may have been put in.
#![tactic(auto)]

mod placed;
mod touched;

pub use placed::{PlacedShapes, push_placed};
pub use touched::TouchedPlaces;
