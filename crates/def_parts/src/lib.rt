//! Parts that DEF statements of several kinds have (LEF/DEF 5.8 Language Reference, "DEF Syntax").
//!
//! Begin with `point::point_at`, a point of a statement, or `number::int_at`, a place for a number; `points` has rows
//! of points, corners of rectangles and polygons, `places` the points in database units, and `clauses` masks and clauses
//! without meaning.
//!
//! What they say is in `def_grammar/specs/Parts`, `Points`, `Limits` and `Clauses`; `specs/PointViews` and
//! `specs/ClauseViews` have the views of these parts there, and what they lend. Tokens are lent from the text that was
//! read, rows of points are read when they are asked for, and nothing takes memory.
//!
//! Where a part isn't in its form a function answers `None`. An invalid number is noted by the cursor after it.
#![tactic(auto)]

pub mod clauses;
pub mod number;
pub mod places;
pub mod point;
pub mod points;
