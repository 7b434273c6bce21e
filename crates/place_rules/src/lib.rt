//! What covers a box, what a row of sites holds, and which names a pattern means, over plain values.
//!
//! A crate of definitions, with no code. `specs/Covering` has `is_covered`, whether rectangles cover a box; `specs/Sites`
//! has `holds` and `is_on_sites`, how a box stands in a row of sites, and `is_row_orient`, which orientations a row takes;
//! `specs/Patterns` has `matches`, whether a name matches a pattern with `*`.
//!
//! Lengths are in database units. Nothing here knows a text or a record, and nothing fails.
#![tactic(auto)]
