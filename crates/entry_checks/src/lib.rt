//! Checks of the statements of a design, one at a time: what they name, which vias of their paths don't join layers, and which
//! of their parts aren't checked.
//!
//! Begin with `statement_lines::StatementChecks`, which is made once of a library and the entries of a design. Its `put` puts the lines
//! on a statement behind others (`report_lines::Lines`): one for each name that isn't defined, one for each via in a path that doesn't
//! join the layer of its wire to another, and one where it has parts whose shape isn't checked. A net is gone over once for its names
//! and its vias; layers and vias that were looked up are kept from one statement to the next. `unchecked::unchecked_in_library` has the
//! lines on macros and vias of a library. What is defined comes as a `known::Defined`, a library and the entries of a design, by the
//! trait `known::Known`. `via_layers::joined_layers` has the layers that a via joins; it takes no memory. What they say is defined in
//! `entry_rules/specs`: `Unknown`, `OffLayer`, `ViaLayers` and `Unchecked`. No text is read here: statements and names come from
//! `design_names`, and libraries from `cell_library`.
//!
//! The one error is `AllocError`; then lines of the statement may be missing.
#![tactic(auto)]

mod diagonals;
mod entry_name;
mod found_via;
pub mod joined_layers;
pub mod known;
mod known_names;
mod name_slot;
mod off_layers;
pub mod statement_lines;
pub mod unchecked;
mod unchecked_entries;
mod unchecked_parts;
mod unchecked_special_nets;
mod unknown;
pub mod via_layers;
