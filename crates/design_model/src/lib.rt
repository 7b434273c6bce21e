//! The values of a chip design in LEF and DEF: points, orientations, sections with their words, faults, lines of a report,
//! and lists that contracts see as lists.
//!
//! Begin with `fault` and `diagnostic`. `specs/EnumWords` has the words of enums, `specs/Units` and
//! `specs/Geometry` what numbers and orientations mean, `specs/Ranges` how far the numbers of wires and vias reach,
//! `specs/Codes` the numbers that faults are printed by, `specs/Lines` and `specs/Families` how a line is written and
//! which lines lists of things have, `specs/Order` the order of lines. What a text says is defined above, from
//! `statement_model` on. What grows answers `AllocError`; nothing here is lent but by `as_slice`.
#![tactic(auto)]

pub mod diagnostic;
pub mod fault;
pub mod geometry;
pub mod identifier;
pub mod mode;
pub mod number;
pub mod sequence;
pub mod token_kind;
pub mod word;

/// How long a text may be, in bytes.
pub const MAX_TEXT: usize = 1073741824;
