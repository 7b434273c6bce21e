//! Finds the entries of a design by their names.
//!
//! Begin with `names::names_of`, which reads the statements of a text once; then `names::Names` answers for a section and a
//! name by one look-up in a table. What it finds is defined in `entry_rules/specs`: `EntryNames` (`entry_named`), `Unknown`
//! and `ViaLayers`; `specs/Tables` says what the table holds, and `specs/NameViews` how what is lent is seen there.
//!
//! `Names` is seen as the design itself, the records of its statements. It lends entries from those statements, and names
//! from their text. Who looks for many components hands `component_near` a `noted_places::NotedPlaces`. The one error is `AllocError`, of `names_of` alone.
#![tactic(auto)]

pub mod names;
pub mod noted_places;
