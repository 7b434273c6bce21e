//! The pieces of a wire's path: segments, rectangles, and the shapes of vias with what keeps them from their layers.
//!
//! Begin with `PathPieces::new`, which goes over a path from its first point on, item by item. What it gives is
//! `wire_rules/specs/Paths`, `pieces_from`, over the numbers of the path's items (`PathItems`), and over the widths and the
//! vias of the design (`WiringMakings`, with a via's shapes as `LayerShapes`): who reads a text says what these are.
//! `GeneratedShapes` has the shapes of a via that a VIARULE generates (`wire_rules/specs/ViaShapes`, `generated_shapes`).
//! The laws `segment_holds_its_ends`, `turning_vias_back`, `lines_of_places` and `pieces_join` say what the definitions mean.
//!
//! The names in pieces are those of the path and of the rules, and live as long as they do. Nothing takes memory and
//! nothing fails: a diagonal wire, a via that isn't known and one off its layer are pieces. The calls ask that numbers are no
//! larger than the grammar of DEF and LEF lets them be (`design_model/specs/Ranges`), and each shape that is given lies within plus or
//! minus 2^61.
#![tactic(auto)]

mod generated;
mod laws;
mod path_items;
mod path_walk;
mod piece;
mod pieces;
mod segment;
mod span;
mod via_places;
mod via_walk;
mod wiring_makings;

pub use generated::{GeneratedShapes, GeneratedVia};
pub use laws::{lines_of_places, pieces_join, segment_holds_its_ends, turning_vias_back};
pub use path_items::{PathItem, PathItems, ViaUse};
pub use piece::Piece;
pub use pieces::PathPieces;
pub use wiring_makings::{LayerShape, LayerShapes, ViaOn, WiringMakings};
