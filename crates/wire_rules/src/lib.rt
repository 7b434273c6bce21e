//! What wires and vias cover, over plain values in database units.
//!
//! A crate of definitions, with no code. Begin with `specs/Paths`: `pieces_from`, the pieces of a path from a place on, item by
//! item; `specs/ViaShapes` has what a generated via covers about its origin (`generated_shapes`), `specs/Placed` where a
//! pin's or a via's rectangle lies (`turned_at`), and `specs/Sizes` which numbers are sizes and counts.
//!
//! Nothing here knows a text or a record: names are bytes, and what a wire's width, or a via, is comes as functions
//! (`WireMakings`). Nothing fails.
#![tactic(auto)]
