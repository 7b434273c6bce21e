//! Turning, placing, overlapping and covering of rectangles, in database units.
//!
//! Begin with `place_box`, the box of a placed component from its macro's boundary, its orientation and its point;
//! `place_rect` places a rectangle of its macro with it, and `pin_rect` one of a pin or of a via, which is given about the
//! pin's or the via's point. `turn` turns a rectangle about the origin, `move_by` moves one, `span` makes one of two
//! points, and `overlaps` says whether two share area, where touching isn't overlapping; `meets` whether they share a
//! point, where it is enough, and `common` what they share. `covered` says whether rectangles cover a box.
//!
//! The definitions are in `design_model/specs/Geometry`, `wire_rules/specs/Placed`, `shape_rules/specs/Meeting` and
//! `place_rules/specs/Covering`; the laws of `specs/Laws`, `specs/Meeting` and `specs/Covering` say what they mean. Rectangles
//! and points are copied, and nothing is lent. Nothing fails and nothing takes memory: the calls that compute coordinates ask
//! that each number lies within plus or minus 2^61, which box corners of a text that reads do.
#![tactic(auto)]

mod covering;
mod laws;
mod meeting;
mod rectangle;
#[cfg(test)]
mod tests;

pub use covering::covered;
pub use laws::{
    common_has_shared_points, common_is_symmetric, covered_by_one, covered_by_squares,
    covered_without_area, meeting_is_symmetric, none_is_apart, overlap_is_shared_area,
    overlap_is_symmetric, turning_back,
};
pub use meeting::{common, meets};
pub use rectangle::{move_by, overlaps, pin_rect, place_box, place_rect, span, turn};
