//! Laws of the numbers of texts that read, in DEF and in LEF.
//!
//! Each law is an empty function that ensures it; call it to use it. `records` says that no record of such a text has a
//! bad number, and what this means record by record: just that each number-valued word passes the test that its form asks
//! for there, as `specs/RecordNumbers` and `specs/LefNumbers` list them. `sizes` says that the sizes, via arrays and cuts
//! of wires and vias are then taken as they are written, so that what the definitions have for others isn't met.
#![tactic(auto)]

pub mod records;
pub mod sizes;
