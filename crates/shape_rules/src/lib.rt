//! Rectangles that meet, and classes of things of which some are joined, over plain values.
//!
//! A crate of definitions, with no code. `specs/Meeting` has `meets`, whether two closed rectangles share a point, `common`,
//! what they share, and `pairs_of`, all pairs of a list; `specs/Classes` has `labels`, the least number in the class of each
//! of some numbered parts, and how many classes hold a marked part (`holding`) and how many hold none (`bare`).
//!
//! Lengths are in database units. Nothing here knows a text or a record, and nothing fails.
#![tactic(auto)]
