//! Finds the names in an entry, or a row, that are defined elsewhere; and of an entry of NETS, in the same reading, how many of its
//! parts aren't checked.
//!
//! Begin with `entries::push_references`, the names of an entry, and `entries::push_row_references`, those of a row;
//! `nets::push_net` gives the count of a net with its names, since its wires are long to read, and `places::first_group_region` has
//! the region of a group alone. `entry_rules/specs/References` says which names these are (`entry_references`), and
//! `specs/ReferenceViews` ties the program to it; which parts aren't checked says `entry_rules/specs/Unchecked`. What counts other
//! entries needs, too, is here: `diagonals::is_diagonal`, and `token_count::few_tokens` with its lemmas.
//!
//! Names are lent from the text, by what they should be the name of (`reference::Reference`). They are added at the end
//! of a list of the caller. The one error is `AllocError`; then the list isn't to be used.
#![tactic(auto)]

pub mod diagonals;
pub mod entries;
pub mod nets;
pub mod places;
pub mod reference;
mod rules;
mod special_nets;
mod terminals;
pub mod token_count;
mod vias;
