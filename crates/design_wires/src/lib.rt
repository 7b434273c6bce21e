//! What wires and vias of a design are made by, over statements that were read once and over its library.
//!
//! Begin with `wires::DesignWires`, which finds once how many database units a micron has in a design, and all its vias and
//! those of its library. With it, as `makings_of_design::DesignMakings`, `wire_reading::net_pieces` and `special_net_pieces`
//! give the pieces of the wires of an entry. It makes `makings::NetMakings` and `special_makings::SpecialMakings`, the widths
//! and the vias of one wire, as `wire_shapes` asks for them; `via_rects::ViaRects` has the rectangles of one via about its
//! origin. What they say is defined in `net_rules/specs`: `Widths`, `ViaRectangles` and `WirePieces`; `specs/KnownVias` says
//! what the table of vias holds, and `specs/ViaRectsLeft` which rectangles are left to be given.
//!
//! Names are lent from the text and from the library. Only the table takes memory, and only making it can fail: a layer, a
//! rule or a via that isn't defined has the width 0 and no shapes. Numbers that the grammar lets no text have are put in range
//! (`wire_rules/specs/Sizes`).
#![tactic(auto)]

mod corners;
mod definitions;
pub mod known_shapes;
mod known_via;
mod layer_rects;
pub mod makings;
pub mod makings_of_design;
mod near_shape;
mod rule_widths;
pub mod scale;
mod sizes;
pub mod special_makings;
mod via_clauses;
mod via_plan;
mod via_plans;
pub mod via_rects;
mod via_table;
pub mod via_view;
pub mod widths;
pub mod wires;
